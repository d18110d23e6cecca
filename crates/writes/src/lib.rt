// Stores of words and rows. Each promises the exact words after it; what changes make of the decoded store is the crate
// `changes`. A caller proves that the words have these counts (`Fits`), so the functions have `requires`. Rests on the
// crates `types`, `chains`, `updates` and `tables`, which has the names of the layout.
// Kept, words and counts: a struct that holds lent `&mut` words would have each contract say that it keeps them
// Kept, Fits c w: a fact of the words, which a struct over `&mut` words cannot hold while they change
// Kept, Ready: as Fits c w
// Kept, IsRow c: no words in it; a row's number comes from a chain, and a struct of it would be made anew at each call
// Kept, o < stride: an offset is a constant of the layout, and that a row is wider is seen where it is named
// Kept, r < c.records: the same of a record's number
// Kept, the mode and owner of l: a Lock is also what any words hold, so its type cannot hold them
#![tactic(auto)]

ghost use Rattle.std.specs.Prelude.{◌≡◌, suc, ◌≤◌, ◌<◌, set};
ghost use Rattle.chains.specs.Table.{place};
ghost use Rattle.chains.specs.Walk.{IsRow};
ghost use Rattle.chains.specs.Change.{Ready, Taken, InsertedSorted};
ghost use Rattle.types.specs.Limits.{MAX_EDITS};
ghost use Rattle.tables.specs.Layout.{Fits, MODES};
ghost use Rattle.writes.specs.Rows.{lock_tag, version_stored, lock_stored, access_stored};

use chains::{Linked, Order};
use tables::{
    A_FROM, A_RECORD, A_VALUE, A_WRITTEN, L_HIGH, L_LOW, L_MODE, L_RECORD, MODES, Part, Row,
    V_POINT, V_SPARE, V_VALUE,
};
use types::{Access, Counts, Lock, Version};
use updates::Pair;

// Stores of one word.

// Kept: words and counts, Fits c w, IsRow c, o < stride; the head of this file says why.
pub fn set_word<P: Part>(w: &mut [u64], c: Counts, i: usize, o: usize, v: u64)
    requires { Fits c w.old × IsRow (P.table c).count i × (o < (P.table c).stride) }
    ensures { w.new ≡ set w.old (place (P.table c) i o) v }
{
    chains::put(w, P::table(c), i, o, v as usize);
}

// Stores of a row's words, all but its link.

// Kept: the one writer of a whole row of this kind; no derive knows offsets (its counterpart is Row::read).
// Kept: words and counts, Fits c w, IsRow c; the head of this file says why.
#[tactic(auto, unfolding(tables::specs::Layout::version_table))]
pub fn put_version(w: &mut [u64], c: Counts, i: usize, point: u64, value: u64)
    requires { Fits c w.old × IsRow c.versions i }
    ensures { w.new ≡ version_stored c w.old i point value }
{
    set_word::<Version>(w, c, i, V_POINT, point);
    set_word::<Version>(w, c, i, V_VALUE, value);
    set_word::<Version>(w, c, i, V_SPARE, 0);
}

// A lock's mode and owner in one word. Owners are slots, so they fit.
// Kept: one word of document 01 holds both; Row::read takes them apart.
// Kept: the mode and owner of l; the head of this file says why.
fn lock_tag(l: Lock) -> u64
    requires { (l.mode < MODES) × (l.owner ≤ MAX_EDITS) }
    ensures { result ≡ lock_tag l }
{
    l.mode + l.owner * MODES
}

// Kept: it stores other words than put_version, one of them a record's number; a trait would only hold the same lines
// Kept: the one writer of a whole row of this kind; no derive knows offsets (its counterpart is Row::read).
// Kept: words and counts, Fits c w, IsRow c, the mode and owner of l; the head of this file says why.
#[tactic(auto, unfolding(tables::specs::Layout::lock_table))]
pub fn put_lock(w: &mut [u64], c: Counts, i: usize, r: usize, l: Lock)
    requires { Fits c w.old × IsRow c.locks i × (l.mode < MODES) × (l.owner ≤ MAX_EDITS) }
    ensures { w.new ≡ lock_stored c w.old i r l }
{
    let tag = lock_tag(l);
    set_word::<Lock>(w, c, i, L_LOW, l.low);
    set_word::<Lock>(w, c, i, L_HIGH, l.high);
    set_word::<Lock>(w, c, i, L_MODE, tag);
    set_word::<Lock>(w, c, i, L_RECORD, r as u64);
}

// Kept: it stores other words than put_version and put_lock; a trait would only hold the same lines
// Kept: the one writer of a whole row of this kind; no derive knows offsets (its counterpart is Row::read).
// Kept: words and counts, Fits c w, IsRow c; the head of this file says why.
#[tactic(auto, unfolding(tables::specs::Layout::access_table))]
pub fn put_access(w: &mut [u64], c: Counts, i: usize, a: Access)
    requires { Fits c w.old × IsRow c.accesses i }
    ensures { w.new ≡ access_stored c w.old i a }
{
    set_word::<Access>(w, c, i, A_RECORD, a.rec);
    set_word::<Access>(w, c, i, A_FROM, a.from);
    set_word::<Access>(w, c, i, A_WRITTEN, a.value.written().is_some() as u64);
    set_word::<Access>(w, c, i, A_VALUE, a.value.word());
}

// The first free row comes to stand on record r's chain of such rows after those whose word o comes before q. Replies
// the row; none where none is free.
// Kept: linked rows can only be searched from the start; the word is named by its offset, as in every store of a word
// Kept: words and counts, Fits c w, Ready, r < c.records, o < stride; the head of this file says why.
pub fn insert<R: Row, O: Order>(
    w: &mut [u64],
    c: Counts,
    r: usize,
    o: usize,
    q: u64,
) -> Option<usize>
    requires { Fits c w.old × (r < c.records) × Ready (R.table c) (R.heads c) w.old (suc r) 0
        × (o < (R.table c).stride) }
    ensures { Taken (R.heads c) w.old w.new 0 result
        (InsertedSorted (R.table c) (R.heads c) w.old w.new (suc r) 0 o q O.precedes) }
{
    let p = Pair {
        of: Linked {
            table: R::table(c),
            heads: R::heads(c),
        },
        a: r + 1,
        b: 0,
    };
    updates::insert_sorted::<O>(w, p, o, q as usize)
}
