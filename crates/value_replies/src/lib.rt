// The line of what a granted call gives, by the number and values that `types` gives its case. `replies` has the line
// of a refusal. Rests on the crates `types` and `replies`.
#![tactic(auto)]

ghost use Rattle.std.specs.Prelude.{◌≡◌};
ghost use Rattle.types.specs.Replies.{of_granted};
ghost use Rattle.replies.specs.Lines.{line_of};

use replies::Line;
use types::{Found, Granted};

// The line of what a call of any kind gives.
// Kept: a From has to stand in the crate of `Line`; DECISIONS, "Many small crates", keeps the lines of values apart.
pub fn line_of_granted(g: Granted) -> Line
    ensures { result ≡ line_of (of_granted g) }
{
    match g {
        Granted::Done => Line::Ok,
        Granted::Edit(h) => Line::Edit(u64::from(h)),
        Granted::Locked(s) => Line::Locked(u64::from(s.low), u64::from(s.high)),
        Granted::Read(Found::Read(tr, end, v)) => Line::Read(u64::from(tr), u64::from(end), v),
        Granted::Read(Found::Own(v)) => Line::Own(v),
        Granted::Read(Found::Again(tr, v)) => Line::Again(u64::from(tr), v),
        Granted::Commit(Some(p)) => Line::Commit(u64::from(p)),
        Granted::Commit(None) => Line::NoPoint,
        Granted::Purged(f) => Line::Purged(f.versions, f.locks),
        Granted::At(s) => Line::At(u64::from(s.point), s.value),
    }
}
