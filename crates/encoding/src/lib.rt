// Calls and replies as words: a row of CALL_WORDS words is a call's kind and its numbers, a row of REPLY_WORDS words a
// reply's code and its numbers, with 0 for those that it lacks. Every row is a call. Rests on the crates `types`,
// `codes` and `telling`.
#![tactic(auto)]

ghost use Rattle.std.specs.Prelude.{◌+◌, ◌*◌, ◌≤◌, ◌≡◌, length};
ghost use Rattle.std.proofs.lemmas.List.Edits.{sets};
ghost use Rattle.types.specs.Replies.{of_answer};
ghost use Rattle.encoding.specs.Encoding.{NUMBERS, CALL_WORDS, REPLY_WORDS, call_of_row, call_at, row_of};

use codes::{bits, extent, finish, mark, refusal};
use telling::{NOPOINT, found};
use types::{Call, Granted, Handle, Pick, Point, Refusal};

// A call is its kind and five numbers, a reply its code and as many.
const NUMBERS: usize = 5;

pub const CALL_WORDS: usize = 1 + NUMBERS;

pub const REPLY_WORDS: usize = 1 + NUMBERS;

// The call of a row: its kind, and its numbers in the order of document 01's script line. Any other kind is View, which
// changes nothing.
// Kept: the kinds are numbers of the C interface.
#[tactic(auto, using(crate::proofs::Decoding::other_kind), unfolding(crate::specs::Encoding::call_of))]
fn call_of(row: [u64; CALL_WORDS]) -> Call
    ensures { result ≡ call_of_row row }
{
    match row {
        // Kept: as above, the C header numbers the kinds.
        [0, ..] => Call::Begin,
        [1, h, rec, value, ..] => Call::Write(Handle::from(h), rec, value),
        [2, h, rec, low, high, part] => Call::Lock(
            Handle::from(h),
            rec,
            Point::from(low),
            Point::from(high),
            extent(part),
        ),
        [3, h, rec, m, part, ..] => {
            Call::Read(Handle::from(h), rec, Point::from(m), extent(part))
        }
        [4, h, keep, ..] => Call::Commit(Handle::from(h), Pick::Earliest, finish(keep)),
        [5, h, keep, ..] => Call::Commit(Handle::from(h), Pick::Latest, finish(keep)),
        [6, h, at, keep, ..] => Call::Commit(
            Handle::from(h),
            Pick::Named(Point::from(at)),
            finish(keep),
        ),
        [7, h, keep, ..] => Call::Abort(Handle::from(h), finish(keep)),
        [8, h, ..] => Call::Settle(Handle::from(h)),
        [9, rec, b, ..] => Call::Purge(rec, Point::from(b)),
        [_, rec, p, ..] => Call::View(rec, Point::from(p)),
    }
}

// Call i of a list.
// Kept: by a number, since the reply's row is put by that number (`put_row`).
pub fn call_at(list: &[u64], i: usize) -> Call
    requires { (i + 1) * CALL_WORDS ≤ length list.now }
    ensures { result ≡ call_at list.now i }
{
    call_of(list.as_chunks::<CALL_WORDS>().0[i])
}

// The row of an answer.
// Kept: C's row of an answer; no arm here makes what one of `value_replies::line_of_granted` makes, and an array has
// no From here.
pub fn row_of(a: Result<Granted, Refusal>) -> [u64; REPLY_WORDS]
    ensures { result ≡ row_of NUMBERS (of_answer a) }
{
    match a {
        Ok(Granted::Done) => [0; REPLY_WORDS],
        Ok(Granted::Edit(h)) => [0, u64::from(h), 0, 0, 0, 0],
        Ok(Granted::Locked(s)) => [0, u64::from(s.low), u64::from(s.high), 0, 0, 0],
        Ok(Granted::Read(f)) => {
            let [kind, tr, end, written, value] = found(f);
            [0, kind, tr, end, written, value]
        }
        Ok(Granted::Commit(Some(p))) => [0, u64::from(p), 0, 0, 0, 0],
        Ok(Granted::Commit(None)) => [NOPOINT, 0, 0, 0, 0, 0],
        Ok(Granted::Purged(f)) => [0, f.versions, f.locks, 0, 0, 0],
        Ok(Granted::At(s)) => [0, u64::from(s.point), mark(s.value), bits(s.value), 0, 0],
        Err(no) => [refusal(no), 0, 0, 0, 0, 0],
    }
}

// Puts a row of any width at a place.
// Kept: the library says nothing of a slice after `as_chunks_mut`; so a row is put by its number.
pub fn put_row<const N: usize>(area: &mut [u64], at: usize, row: [u64; N])
    requires { at + N ≤ length area.old }
    ensures { area.new ≡ sets area.old at row.entry }
{
    area[at..at + N].copy_from_slice(&row);
}
