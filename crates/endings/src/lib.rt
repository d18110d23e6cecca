// Settle and Abort on sound words: each equal to its definition in the crate `meaning`, and each leaving sound words.
// Rests on the crates `types`, `meaning`, `chains`, `tables`, `changes`, `slots`, `lookups`, `index` and `calls`. They
// are for callers who prove the words sound (`requires sound_words`), as those of the crate `calls`. No call here looks
// at more than the chains it touches; Settle looks once at the locks of each record that the edit may have touched.
// Kept, words and counts: lent to be changed; over a struct of both each would promise, too, that they stay (Rattle's
// docs/BORROWS.md).
// Kept, Well c w: of words before a change; a ghost field would say it of the words after it, which is each promise.
// Kept, Ready c w: `Well` and more, of words before a change; a ghost field would say it of the words after it.
// Kept, sound words: what a caller proves once for many calls, of words that each call changes.
// Kept, Indexed: between words that change and an index, which C callers lend one beside the other.
// Kept, words and index: two memories that C callers lend, one of them to be changed.
// Kept, finish and index: the call's own flag, and the memory that C callers lend. Contracts say them apart, as the
// meaning does, so that a struct of both would be opened in each.
// Kept, IsRow c.edits k: of `index.slot`; an `IndexOf` has no counts, which stand beside the words.
// Kept, in_use: what `known_slot` found, or the change before has made, of words that change.
// Kept, state ≡ OPEN: what `open_slot` found, of words that change.
#![tactic(auto)]

ghost use Rattle.std.specs.Prelude.{◌≡◌, true};
ghost use Rattle.chains.specs.Walk.{IsRow};
ghost use Rattle.types.specs.Limits.{OPEN};
ghost use Rattle.meaning.specs.Store.{edit_at, in_use};
ghost use Rattle.types.specs.Replies.{of_done};
ghost use Rattle.meaning.specs.Ending.{finished, aborted, settled, aborting, settling};
ghost use Rattle.tables.specs.Decode.{decode_at};
ghost use Rattle.tables.specs.Words.{lent, decode, sound_words, Well};
ghost use Rattle.changes.specs.Becomes.{Becomes};
ghost use Rattle.calls.specs.Contract.{Acts, Ready};
ghost use Rattle.index.specs.Index.{Indexed};
ghost use Rattle.endings.specs.Steps.{freed_all};
ghost use Rattle.endings.specs.Frees.{Freed};

mod each;

pub use each::{Step, each_access};
use index::IndexOf;
use tables::{Row, Slot, Tables};
use types::{ABORTED, Access, COMMITTED, Counts, Finish, Handle, READ, Refusal, WRITE};

// Settle.

// The settled locks that each access of an edit committed at t leaves.
#[derive(Clone, Copy)]
struct Leave {
    t: u64,
}

impl Step for Leave {
    ghost use Rattle.endings.specs.Steps.{left_rec, LeaveNeed};

    ghost makes = { λ s. left_rec s.t };

    ghost need = { λ s. LeaveNeed };

    // Kept: words and counts; the head of this file says why.
    fn turn(self, w: &mut [u64], c: Counts, i: usize) {
        let tables = Tables {
            words: w,
            counts: c,
        };
        let a = Access::read(tables, i);
        let r = a.rec as usize;
        if 0 < a.from {
            changes::leave_settled(w, c, r, READ, a.from, self.t);
        }
        if a.value.written().is_some() {
            changes::leave_settled(w, c, r, WRITE, self.t, self.t);
        }
    }
}

// The slot's locks go from record r, if there is such a record and the index does not say that the slot has none there.
// Kept: words and counts, IsRow c.edits k, Indexed, Well c w; the head of this file says why.
fn free_turn(w: &mut [u64], c: Counts, index: IndexOf<'_>, r: usize)
    requires { Well c w.old × IsRow c.edits index.slot × Indexed (decode_at c w.old) index.numbers.now }
    ensures { Freed index.entry.slot c index.entry.numbers.now w.old w.new r }
{
    if r < c.records && !index.silent(r) {
        changes::drop_owner(w, c, r, index.slot as u64);
    }
}

// The slot's locks go, from every record that it may have touched.
// Kept: words and counts, IsRow c.edits k, Indexed, Well c w; the head of this file says why.
fn free_locks(w: &mut [u64], c: Counts, index: IndexOf<'_>)
    requires { Well c w.old × IsRow c.edits index.slot × Indexed (decode_at c w.old) index.numbers.now }
    ensures { Becomes c w.new (freed_all index.entry.slot (decode_at c w.old)) }
{
    for i in 0..index.turns(c.records) {
        free_turn(w, c, index, index.turn(i));
    }
}

// The slot's own locks go first, so that there is a row for each that is left. A committed edit leaves settled locks,
// an aborted one nothing.
// Kept: words and counts, in_use, Indexed, Ready c w; the head of this file says why.
fn settle_slot(w: &mut [u64], c: Counts, index: IndexOf<'_>)
    requires { Ready c w.old × (in_use (decode_at c w.old).edits index.slot ≡ true)
        × Indexed (decode_at c w.old) index.numbers.now }
    ensures { Becomes c w.new (settled (decode_at c w.old) index.entry.slot) }
{
    let k = index.slot;
    let tables = Tables {
        words: w,
        counts: c,
    };
    let slot = Slot { tables, number: k };
    let state = slot.state();
    let t = slot.point();
    free_locks(w, c, index);
    if state == COMMITTED {
        each_access(w, c, k, Leave { t });
    }
    slots::free_slot(w, c, k);
}

// S settles at the end, K keeps the locks.
// Kept: the flag of the call comes from outside, so one match is needed, and this is it.
// Kept: words and counts, finish and index, in_use, Indexed, Ready c w; the head of this file says why.
pub fn finish_slot(w: &mut [u64], c: Counts, finish: Finish, index: IndexOf<'_>)
    requires { Ready c w.old × (in_use (decode_at c w.old).edits index.slot ≡ true)
        × Indexed (decode_at c w.old) index.numbers.now }
    ensures { Becomes c w.new (finished finish (decode_at c w.old) index.entry.slot) }
{
    match finish {
        Finish::Settle => settle_slot(w, c, index),
        Finish::Keep => {}
    }
}

// Kept: words and index, Indexed, sound words; the head of this file says why.
pub fn settle(w: &mut [u64], h: Handle, ix: &[u16]) -> Result<(), Refusal>
    requires { (sound_words (lent w.old) ≡ true) × Indexed (decode (lent w.old)) ix.now }
    ensures { Acts (settling h.0) (lent w.old) (lent w.new) (of_done result) }
{
    let c = tables::counts_of(w);
    let tables = Tables {
        words: w,
        counts: c,
    };
    let k = calls::known_slot(tables, h)?;
    if lookups::is_open(tables, h) {
        return Err(Refusal::EditOpen);
    }
    let index = IndexOf {
        numbers: ix,
        slot: k,
    };
    settle_slot(w, c, index);
    Ok(())
}

// Abort, and Commit of an edit without a common point.

// Kept: words and counts, finish and index, state ≡ OPEN, Indexed, Ready c w; the head of this file says why.
pub fn end_aborted(w: &mut [u64], c: Counts, finish: Finish, index: IndexOf<'_>)
    requires { Ready c w.old × ((edit_at (decode_at c w.old) index.slot).state ≡ OPEN)
        × Indexed (decode_at c w.old) index.numbers.now }
    ensures { Becomes c w.new
        (finished finish (aborted (decode_at c w.old) index.entry.slot) index.entry.slot) }
{
    slots::set_state(w, c, index.slot, ABORTED, 0);
    finish_slot(w, c, finish, index);
}

// Kept: words and index, finish and index, Indexed, sound words; the head of this file says why.
pub fn abort(w: &mut [u64], h: Handle, finish: Finish, ix: &[u16]) -> Result<(), Refusal>
    requires { (sound_words (lent w.old) ≡ true) × Indexed (decode (lent w.old)) ix.now }
    ensures { Acts (aborting h.0 finish) (lent w.old) (lent w.new) (of_done result) }
{
    let c = tables::counts_of(w);
    let tables = Tables {
        words: w,
        counts: c,
    };
    let k = calls::open_slot(tables, h)?;
    let index = IndexOf {
        numbers: ix,
        slot: k,
    };
    end_aborted(w, c, finish, index);
    Ok(())
}
