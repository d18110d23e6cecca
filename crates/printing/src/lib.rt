// A line written into a lent buffer. Nothing here knows a store. Rests on the crates `types`, `replies` and `texts`.
#![tactic(auto)]

ghost use Rattle.printing.specs.Shown.{Printed};

use replies::Line;
use texts::{put_one, put_one_value, put_two, put_two_value, put_word};

// The buffer for one line. The longest, `read` with three numbers of 20 digits, has 67 bytes.
pub const WIDTH: usize = 80;

// Writes a line, without its newline, at the start of a buffer, and answers its length.
// Kept: beside Display of `Line`, which may fail, by its contract, this cannot: every line fits into the buffer.
pub fn print(l: Line, out: &mut [u8; WIDTH]) -> usize
    ensures { Printed l out.new result }
{
    match l {
        Line::Ok => put_word(out, 0, b"ok"),
        Line::Edit(h) => put_one(out, b"edit ", h),
        Line::Locked(low, high) => put_two(out, b"locked ", low, high),
        Line::Read(tr, end, v) => put_two_value(out, b"read ", tr, end, v),
        Line::Own(v) => put_one(out, b"own ", v),
        Line::Again(tr, v) => put_one_value(out, b"again ", tr, v),
        Line::Commit(p) => put_one(out, b"commit ", p),
        Line::NoPoint => put_word(out, 0, b"nopoint"),
        Line::Purged(versions, locks) => put_two(out, b"purged ", versions, locks),
        Line::At(p, v) => put_one_value(out, b"at ", p, v),
        Line::No(n) => put_one(out, b"no ", n),
        Line::Held(h) => put_one(out, b"no 8 ", h),
        Line::Malformed => put_word(out, 0, b"?"),
    }
}
