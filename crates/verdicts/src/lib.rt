// What a caller from another language hears of a reply that is `ok` or a refusal: a number alone, 0 or that of the
// refusal. Rests on the crates `types` and `codes`.
#![tactic(auto)]

ghost use Rattle.std.specs.Prelude.{[]};
ghost use Rattle.types.specs.Replies.{of_done};
ghost use Rattle.codes.specs.Codes.{Tells};

use codes::refusal;
use types::Refusal;

// Kept: C hears a refusal as a number, and 0 for none.
pub fn done(r: Result<(), Refusal>) -> u64
    ensures { Tells (of_done r) result [] [] }
{
    match r {
        Ok(()) => 0,
        Err(x) => refusal(x),
    }
}
