// The tables of a store in lent words: the layout of document 01, the header, and rows by value. Rests on the crates
// `types`, `meaning` and `chains`. Each read equals a part of the decoded store; the stores of words and rows are the
// crate `writes`. This file has the layout and the header, `parts` and `rows` the traits of a part and of a kind of row
// on chains, and `views` words that have their counts (`Tables`), a record and an edit slot of them.
#![tactic(auto)]

mod parts;
mod rows;
mod views;

ghost use Rattle.std.specs.Prelude.{◌≡◌, ◌≤◌, ◌<◌, length, get_or};
ghost use Rattle.meaning.specs.Records.{in_range, good_counts};
ghost use Rattle.tables.specs.Layout.{HEADER, RECORD, version_heads, lock_heads, counts_of};
ghost use Rattle.tables.specs.Layout.{size_of, header_ok, Ranged};

use chains::Heads;
pub use parts::{Part, Records, Slots};
pub use rows::{Row, Rows};
use types::{Counts, MAX_EDITS, MAX_RECORDS, MAX_ROWS};
pub use views::{Record, Slot, Tables};

// The layout: every width and offset has its name here and nowhere else; specs/Layout has the same names.
pub const HEADER: usize = 8;

pub const RECORD: usize = 3;

pub const SLOT: usize = 4;

pub const VERSION: usize = 4;

pub const LOCK: usize = 5;

pub const ACCESS: usize = 5;

pub const H_RECORDS: usize = 0;

pub const H_EDITS: usize = 1;

pub const H_VERSIONS: usize = 2;

pub const H_LOCKS: usize = 3;

pub const H_ACCESSES: usize = 4;

pub const FREE_VERSION: usize = 5;

pub const FREE_LOCK: usize = 6;

pub const FREE_ACCESS: usize = 7;

pub const R_VERSION: usize = 0;

pub const R_LOCK: usize = 1;

pub const R_FLOOR: usize = 2;

pub const S_STATE: usize = 0;

pub const S_GENERATION: usize = 1;

pub const S_ACCESS: usize = 2;

pub const S_POINT: usize = 3;

pub const V_POINT: usize = 0;

pub const V_VALUE: usize = 1;

pub const V_SPARE: usize = 2;

pub const V_NEXT: usize = 3;

pub const L_LOW: usize = 0;

pub const L_HIGH: usize = 1;

pub const L_MODE: usize = 2;

pub const L_RECORD: usize = 3;

pub const L_NEXT: usize = 4;

pub const MODES: u64 = 4;

pub const A_RECORD: usize = 0;

pub const A_FROM: usize = 1;

pub const A_WRITTEN: usize = 2;

pub const A_VALUE: usize = 3;

pub const A_NEXT: usize = 4;

// The heads of chains that each record has one of: `first` is the head word of record 0's.
fn record_heads(c: Counts, free: usize, first: usize) -> Heads
    ensures { result ≡ record { free = free; first = first; step = RECORD; owners = c.records } }
{
    Heads {
        free,
        first,
        step: RECORD,
        owners: c.records,
    }
}

// Kept: rows in lent words, linked by their numbers, as document 01 has them. Public and of any counts, as it was;
// `Row::heads` asks that counts are good. The two share `record_heads`.
#[tactic(auto, unfolding(crate::specs::Layout::version_heads))]
pub fn version_heads(c: Counts) -> Heads
    ensures { result ≡ version_heads c }
{
    record_heads(c, FREE_VERSION, HEADER + R_VERSION)
}

// Kept: as `version_heads`.
#[tactic(auto, unfolding(crate::specs::Layout::lock_heads))]
pub fn lock_heads(c: Counts) -> Heads
    ensures { result ≡ lock_heads c }
{
    record_heads(c, FREE_LOCK, HEADER + R_LOCK)
}

// The header.

// Kept: words of any length are no counts, and a `From` may ask for nothing.
#[tactic(auto, unfolding(crate::specs::Layout::counts_of))]
pub fn counts_of(w: &[u64]) -> Counts
    requires { HEADER ≤ length w.now }
    ensures { result ≡ counts_of w.now }
{
    Counts {
        records: w[H_RECORDS] as usize,
        edits: w[H_EDITS] as usize,
        versions: w[H_VERSIONS] as usize,
        locks: w[H_LOCKS] as usize,
        accesses: w[H_ACCESSES] as usize,
    }
}

fn in_range(n: usize, top: usize) -> bool
    ensures { result ≡ in_range n top }
{
    1 <= n && n <= top
}

#[tactic(auto, unfolding(meaning::specs::Records::good_counts))]
pub fn good_counts(c: Counts) -> bool
    ensures { result ≡ good_counts c }
{
    in_range(c.records, MAX_RECORDS)
        && in_range(c.edits, MAX_EDITS)
        && in_range(c.versions, MAX_ROWS)
        && in_range(c.locks, MAX_ROWS)
        && in_range(c.accesses, MAX_ROWS)
}

// Kept: as `Part::table`, of counts that were tested.
pub fn size_of(c: Counts) -> usize
    requires { Ranged c }
    ensures { result ≡ size_of c }
{
    HEADER
        + c.records * RECORD
        + c.edits * SLOT
        + c.versions * VERSION
        + c.locks * LOCK
        + c.accesses * ACCESS
}

// Whether the length fits the counts, and they are in range.
pub fn header_ok(w: &[u64]) -> bool
    ensures { result ≡ header_ok w.now }
{
    if w.len() < HEADER {
        return false;
    }
    let c = counts_of(w);
    good_counts(c) && w.len() == size_of(c)
}
