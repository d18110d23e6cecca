// What a caller from another language says and hears as numbers: the flags of a call, the number of a refusal, and a
// value. The crates `verdicts` and `telling` tell whole replies by them. Rests on the crates `types` and `meaning`.
#![tactic(auto)]

ghost use Rattle.std.specs.Prelude.{◌≡◌};
ghost use Rattle.types.specs.Replies.{of_refusal};
ghost use Rattle.codes.specs.Codes.{code_of, mark_of, bits_of, flag_of, extent_of, finish_of};

use types::{Extent, Finish, Refusal, Value};

// A handle is below HANDLES, and the number of a refusal below CODES, so that both fit in one word.
const HANDLES: u64 = types::GENERATIONS * types::SLOTS;

const CODES: u64 = 32;

// A flag as a number: 0 is the first of two, any other number the second, so that every number has a meaning.
// Kept: a flag is a number of the C interface.
pub fn flag<T: Copy>(n: u64, zero: T, other: T) -> T
    ensures { result ≡ flag_of n zero other }
{
    if n == 0 { zero } else { other }
}

// The flags A and P: 0 is A, any other number is P.
// Kept: a flag is a number of the C interface, of which `types`, whose the enum is, knows nothing; `flag` reads it.
pub fn extent(part: u64) -> Extent
    ensures { result ≡ extent_of part }
{
    flag(part, Extent::All, Extent::Part)
}

// The flags S and K: 0 is S, any other number is K.
// Kept: as `extent`, with the enum's other names: both are instances of `flag`.
pub fn finish(keep: u64) -> Finish
    ensures { result ≡ finish_of keep }
{
    flag(keep, Finish::Settle, Finish::Keep)
}

// The number of a refusal; the holder's handle stands above it.
// Kept: C hears a refusal as a number; a `From` is not ours to give, since `Refusal` and u64 are both of other crates.
pub fn refusal(r: Refusal) -> u64
    ensures { result ≡ code_of (of_refusal r) }
{
    if let Refusal::Held(h) = r {
        return u64::from(h) % HANDLES * CODES + r.number();
    }
    r.number()
}

// A value as two numbers: whether it was ever written, and its bits.
// Kept: C has no Option; it hears a value as two numbers, each at a pointer of its own or in a row.
pub fn mark(v: Value) -> u64
    ensures { result ≡ mark_of v }
{
    v.is_some() as u64
}

// Kept: as `mark`.
pub fn bits(v: Value) -> u64
    ensures { result ≡ bits_of v }
{
    v.unwrap_or(0)
}
