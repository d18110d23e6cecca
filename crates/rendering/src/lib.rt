// The line that prints the answer of `perform`, for every program that runs calls read from text. Rests on the crates
// `types`, `replies` and `value_replies`.
#![tactic(auto)]

ghost use Rattle.std.specs.Prelude.{◌≡◌};
ghost use Rattle.types.specs.Replies.{of_answer};
ghost use Rattle.replies.specs.Lines.{line_of};

use replies::Line;
use types::{Granted, Refusal};
use value_replies::line_of_granted;

// The line of an answer: what the call gives, or the refusal.
// Kept: a From has to stand in the crate of `Line`; DECISIONS, "Many small crates", keeps the lines of values apart.
pub fn line_of_answer(a: Result<Granted, Refusal>) -> Line
    ensures { result ≡ line_of (of_answer a) }
{
    a.map_or_else(Line::from, line_of_granted)
}
