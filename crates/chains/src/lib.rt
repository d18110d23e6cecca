// Singly linked chains of rows in a lent slice of words, over any table. Rests on nothing.
//
// A row's link word holds the number of the next row; 0 ends the chain. The chains of a table are numbered: 0 is the
// free chain, k + 1 the chain of owner k. The functions are for callers who prove where the table lies (`Lies`,
// `HeadsLie`, `Laid`), so they have `requires`. Beyond that the read-only functions ask for nothing: on any words,
// circular chains too, they end and are exact. Mutators also ask that every row is on exactly one chain (`Ready`), and
// promise the two chains they touch, all others and all other words unchanged, and that every row is still on exactly
// one chain (`Changed`).
//
// This file has the types and the access to single words; `placed` reads tables and walks chains, `partition` checks
// them. The crate `updates` changes them.
// Kept, rows by numbers: rows linked by their numbers in lent words are the form of document 01, and there is no heap
// Kept, Lies and HeadsLie: facts of the words, which a struct over `&mut` words cannot hold while they change
// Kept, IsRow and places: a row's number is read from a link word; a struct for it would hold one fact of a number
// Kept, k ≤ owners: the number of a chain comes from its caller's counts, which are not here
// Kept, o < stride: an offset is a constant of the layout, and that a row is wider is seen where it is named
#![tactic(auto)]

mod order;
mod partition;
mod placed;
mod walk;

ghost use Rattle.std.specs.Prelude.{◌≡◌, ◌+◌, ◌*◌, ◌<◌, ◌≤◌, get_or, set};
ghost use Rattle.chains.specs.Walk.{IsRow, more};
ghost use Rattle.chains.specs.Cursor.{start, Stepped};
ghost use Rattle.chains.specs.Table.{Lies, HeadsLie, Laid, place, field, head_cell, head_of, after_cell};

pub use order::{Falling, Order, Rising};
pub use partition::{MARKS, partitions_ok};
pub use placed::Placed;
pub use walk::{Fields, Walk};

// Where a table's rows lie: its first word, the width of a row, the link word's offset in a row, the number of rows.
// Rows count from 1.
// Kept: rows linked by their numbers in the lent words are the form of document 01, and there is no heap
#[derive(Clone, Copy)]
pub struct Table {
    pub base: usize,
    pub stride: usize,
    pub off: usize,
    pub count: usize,
}

// Where the head words lie: the free chain's, the first owner's, the distance from one owner's to the next, the number
// of owners.
// Kept: rows linked by their numbers in the lent words are the form of document 01, and there is no heap
#[derive(Clone, Copy)]
pub struct Heads {
    pub free: usize,
    pub first: usize,
    pub step: usize,
    pub owners: usize,
}

// How far a walk along a chain has come: the row that it meets next, and how many rows it may still meet.
// Kept: rows linked by their numbers in the lent words are the form of document 01, and there is no heap
#[derive(Clone, Copy)]
pub struct Cursor {
    pub row: usize,
    pub left: usize,
}

// A table with its chains.
// Kept: rows linked by their numbers in the lent words are the form of document 01, and there is no heap
#[derive(Clone, Copy)]
pub struct Linked {
    pub table: Table,
    pub heads: Heads,
}

// Rows' words.

// Kept: rows by numbers, IsRow and places, o < stride; the head of this file says why. `put` and Placed::word share it.
fn at(t: Table, i: usize, o: usize, n: usize) -> usize
    requires { (t.base + t.count * t.stride ≤ n) × IsRow t.count i × (o < t.stride) }
    ensures { (result ≡ place t i o) × (result < n) }
{
    t.base + (i - 1) * t.stride + o
}

// Kept: rows by numbers, Lies and HeadsLie, IsRow and places, o < stride; the head of this file says why.
pub fn put(w: &mut [u64], t: Table, i: usize, o: usize, v: usize)
    requires { Lies t w.old × IsRow t.count i × (o < t.stride) }
    ensures { w.new ≡ set w.old (place t i o) v }
{
    let k = at(t, i, o, w.len());
    w[k] = v as u64;
}

// Head words.

// Kept: rows by numbers, k ≤ owners; the head of this file says why. `head_of` and `set_head` share it.
fn head_at(h: Heads, k: usize, n: usize) -> usize
    requires { (h.free < n) × (h.first + h.owners * h.step ≤ n) × (0 < h.step) × (k ≤ h.owners) }
    ensures { (result ≡ head_cell h k) × (result < n) }
{
    if k == 0 {
        h.free
    } else {
        h.first + (k - 1) * h.step
    }
}

// Kept: the answer is the word of document 01, where 0 is for an empty chain, and the words may be lent as `&mut`
// Kept: rows by numbers, Lies and HeadsLie, k ≤ owners; the head of this file says why.
pub fn head_of(w: &[u64], h: Heads, k: usize) -> usize
    requires { HeadsLie h w.now × (k ≤ h.owners) }
    ensures { result ≡ head_of h w.now k }
{
    let a = head_at(h, k, w.len());
    w[a] as usize
}

// Kept: rows by numbers, Lies and HeadsLie, k ≤ owners; the head of this file says why.
pub fn set_head(w: &mut [u64], h: Heads, k: usize, v: usize)
    requires { HeadsLie h w.old × (k ≤ h.owners) }
    ensures { w.new ≡ set w.old (head_cell h k) v }
{
    let a = head_at(h, k, w.len());
    w[a] = v as u64;
}

// Places. A place on a chain is a row of it, or 0 for its start.

// Kept: the answer is the word of document 01, where 0 ends a chain; it is stored in another link word
// Kept: rows by numbers, Lies and HeadsLie, IsRow and places, k ≤ owners; the head of this file says why.
pub fn next_after(w: &[u64], c: Linked, a: usize, p: usize) -> usize
    requires { Laid c.table c.heads w.now × (a ≤ c.heads.owners) × (p ≤ c.table.count) }
    ensures { result ≡ get_or w.now (after_cell c.table c.heads a p) 0 }
{
    if p == 0 {
        head_of(w, c.heads, a)
    } else {
        let table = c.table;
        Placed { words: w, table }.link(p)
    }
}

// Kept: rows by numbers, Lies and HeadsLie, IsRow and places, k ≤ owners; the head of this file says why.
pub fn set_after(w: &mut [u64], c: Linked, a: usize, p: usize, v: usize)
    requires { Laid c.table c.heads w.old × (a ≤ c.heads.owners) × (p ≤ c.table.count) }
    ensures { w.new ≡ set w.old (after_cell c.table c.heads a p) v }
{
    if p == 0 {
        set_head(w, c.heads, a, v);
    } else {
        put(w, c.table, p, c.table.off, v);
    }
}

impl Cursor {
    // A walk from a chain's first row, which may meet every row of the table.
    // Kept: rows linked by their numbers in the lent words are the form of document 01, and there is no heap
    pub fn new(t: Table, head: usize) -> Cursor
        ensures { result ≡ start t head }
    {
        Cursor {
            row: head,
            left: t.count,
        }
    }

    // Whether the walk goes on, in a table of so many rows.
    #[tactic(auto, unfolding(crate::specs::Walk::more, crate::specs::Walk::among))]
    fn goes_on(self, count: usize) -> bool
        ensures { result ≡ more count self.left self.row }
    {
        1 <= self.left && 1 <= self.row && self.row <= count
    }

    // The next row of the walk, which then stands after it; none at the end of the chain or with no row left.
    // Kept: rows linked by their numbers in the lent words are the form of document 01, and there is no heap
    pub fn along(&mut self, t: &Placed) -> Option<usize>
        ensures { Stepped t.now.table t.now.words.now self.old result self.new }
    {
        let i = self.row;
        if !self.goes_on(t.table.count) {
            return None;
        }
        self.row = t.link(i);
        self.left -= 1;
        Some(i)
    }
}
