// How a record's value is printed, and words, numbers and values put into a lent buffer: each function that puts
// answers where the bytes that it wrote end. Proved against specs/. Rests on the crate `types`.
#![tactic(auto)]

ghost use Rattle.std.specs.Prelude.{Some, [], ◌∷◌, ◌+◌, ◌≤◌, ◌<◌, length};
ghost use Rattle.texts.specs.Parts.{Appended, decimal, value_text, one as one·of, two as two·of, one_value};
ghost use Rattle.texts.specs.Parts.{two_value};

use std::fmt;
use types::Value;

// The byte between fields.
pub const SPACE: u8 = b' ';

// A record's value, to be printed: one never written prints as `-`.
#[derive(Clone, Copy)]
pub struct Printed(pub Value);

impl fmt::Display for Printed {
    ghost output = { λ v. Some (value_text v.0) };

    fn fmt<W: fmt::Write>(&self, f: &mut fmt::Formatter<W>) -> fmt::Result {
        match self.0 {
            None => f.write_str("-"),
            Some(x) => write!(f, "{x}"),
        }
    }
}

// Puts one byte at a position.
// Kept: a lent buffer of any length, which `Bytes` is not; and Display may fail, by its contract, where this cannot.
fn put(out: &mut [u8], at: usize, b: u8) -> usize
    requires { at < length out.old }
    ensures { Appended out.old at (b ∷ []) out.new result }
{
    out[at] = b;
    at + 1
}

// Puts a word at a position.
// Kept: a lent buffer of any length, which `Bytes` is not; and Display may fail, by its contract, where this cannot.
pub fn put_word(out: &mut [u8], at: usize, word: &[u8]) -> usize
    requires { at + length word.now ≤ length out.old }
    ensures { Appended out.old at word.now out.new result }
{
    let end = at + word.len();
    out[at..end].copy_from_slice(word);
    end
}

// Puts the decimal digits of a number at a position.
// Kept: a lent buffer of any length, which `Bytes` is not; and Display may fail, by its contract, where this cannot.
fn put_number(out: &mut [u8], at: usize, n: u64) -> usize
    requires { at + length (decimal n) ≤ length out.old }
    ensures { Appended out.old at (decimal n) out.new result }
{
    if n < 10 {
        return put(out, at, b'0' + n as u8);
    }
    let i = put_number(out, at, n / 10);
    put(out, i, b'0' + (n % 10) as u8)
}

// Puts a record's value at a position.
// Kept: a lent buffer of any length, which `Bytes` is not; beside Display of `Printed`, which may fail, this cannot.
fn put_value(out: &mut [u8], at: usize, v: Value) -> usize
    requires { at + 20 ≤ length out.old }
    ensures { Appended out.old at (value_text v) out.new result }
{
    match v {
        None => put(out, at, b'-'),
        Some(x) => put_number(out, at, x),
    }
}

// Puts a word and a number at the start. A number has 20 digits at most.
// Kept: a lent buffer of any length, which `Bytes` is not; and Display may fail, by its contract, where this cannot.
pub fn put_one(out: &mut [u8], word: &[u8], n: u64) -> usize
    requires { length word.now + 20 ≤ length out.old }
    ensures { Appended out.old 0 (one·of word.now n) out.new result }
{
    let i = put_word(out, 0, word);
    put_number(out, i, n)
}

// Puts a word and two numbers at the start.
// Kept: a lent buffer of any length, which `Bytes` is not; and Display may fail, by its contract, where this cannot.
pub fn put_two(out: &mut [u8], word: &[u8], n: u64, m: u64) -> usize
    requires { length word.now + 41 ≤ length out.old }
    ensures { Appended out.old 0 (two·of word.now n m) out.new result }
{
    let i = put_one(out, word, n);
    let j = put(out, i, SPACE);
    put_number(out, j, m)
}

// Puts a word, a number and a value at the start.
// Kept: a lent buffer of any length, which `Bytes` is not; and Display may fail, by its contract, where this cannot.
pub fn put_one_value(out: &mut [u8], word: &[u8], n: u64, v: Value) -> usize
    requires { length word.now + 41 ≤ length out.old }
    ensures { Appended out.old 0 (one_value word.now n v) out.new result }
{
    let i = put_one(out, word, n);
    let j = put(out, i, SPACE);
    put_value(out, j, v)
}

// Puts a word, two numbers and a value at the start.
// Kept: a lent buffer of any length, which `Bytes` is not; and Display may fail, by its contract, where this cannot.
pub fn put_two_value(out: &mut [u8], word: &[u8], n: u64, m: u64, v: Value) -> usize
    requires { length word.now + 62 ≤ length out.old }
    ensures { Appended out.old 0 (two_value word.now n m v) out.new result }
{
    let i = put_two(out, word, n, m);
    let j = put(out, i, SPACE);
    put_value(out, j, v)
}
