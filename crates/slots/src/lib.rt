// Changes of a slot and of its accesses, as those of `changes`: each leaves the words well formed and equals a function
// of the decoded store; the callers prove that the words are well formed (`Well`), that slots are in range, and that
// there is room. Rests on the crates `types`, `meaning`, `chains`, `updates`, `tables`, `writes` and `changes`.
// Kept, words and counts: lent to be changed; over a struct of both each would promise, too, that they stay (Rattle's
// docs/BORROWS.md).
// Kept, Well c w: of words before a change; a ghost field would say it of the words after it, which is each promise.
// Kept, IsRow c.edits k: no words in it; a struct of counts and number would be made anew at each call, and where a
// slot goes with a record, two would have to be said to have the same counts.
#![tactic(auto)]

ghost use Rattle.std.specs.Prelude.{◌≡◌, true, false, [], ◌≤◌, ◌<◌};
ghost use Rattle.chains.specs.Lists.{occ};
ghost use Rattle.chains.specs.Walk.{IsRow};
ghost use Rattle.chains.specs.Change.{Taken, Moved};
ghost use Rattle.types.specs.Limits.{GENERATIONS};
ghost use Rattle.meaning.specs.Store.{edit_at, names, accesses_used};
ghost use Rattle.meaning.specs.Outcomes.{access_room};
ghost use Rattle.meaning.specs.Sound.{names_once};
ghost use Rattle.meaning.specs.Edits.{begun, with_access};
ghost use Rattle.meaning.specs.Ending.{ended, freed};
ghost use Rattle.tables.specs.Layout.{access_table, access_heads};
ghost use Rattle.tables.specs.Decode.{access_at, access_rows, decode_at, AccessRow};
ghost use Rattle.tables.specs.Words.{Well};
ghost use Rattle.changes.specs.Becomes.{Becomes};
ghost use Rattle.changes.specs.Becomes.{with_generation};
ghost use Rattle.changes.specs.Becomes.{with_accesses, on_edit};

use chains::Linked;
use tables::{Part, Row, S_GENERATION, S_POINT, S_STATE, Slot, Slots, Tables};
use types::{Access, Counts, FREE, OPEN};
use updates::Pair;
use writes::set_word;

// The slot's state and commit point.
// Kept: any number may be stored, as it always could; an enum of the four states would ask more of callers.
// Kept: words and counts, IsRow c.edits k, Well c w; the head of this file says why.
pub fn set_state(w: &mut [u64], c: Counts, k: usize, state: u64, point: u64)
    requires { Well c w.old × IsRow c.edits k }
    ensures { Becomes c w.new
        (on_edit (decode_at c w.old) k (λ e. ended e state point)) }
{
    set_word::<Slots>(w, c, k, S_STATE, state);
    set_word::<Slots>(w, c, k, S_POINT, point);
}

// The slot's generation.
// Kept: words and counts, IsRow c.edits k, Well c w; the head of this file says why.
fn set_generation(w: &mut [u64], c: Counts, k: usize, g: u64)
    requires { Well c w.old × IsRow c.edits k }
    ensures { Becomes c w.new (on_edit (decode_at c w.old) k (λ e. with_generation e g)) }
{
    set_word::<Slots>(w, c, k, S_GENERATION, g);
}

// Begin: a free slot is opened, with the next generation.
// Kept: words and counts, IsRow c.edits k, Well c w; the head of this file says why.
pub fn open_slot(w: &mut [u64], c: Counts, k: usize)
    requires { Well c w.old × IsRow c.edits k × ((edit_at (decode_at c w.old) k).generation < GENERATIONS)
        × ((edit_at (decode_at c w.old) k).accesses ≡ []) }
    ensures { Becomes c w.new (begun (decode_at c w.old) k) }
{
    let tables = Tables {
        words: w,
        counts: c,
    };
    let g = Slot { tables, number: k }.generation();
    let next = types::next_generation(g as u16);
    set_generation(w, c, k, next as u64);
    set_state(w, c, k, OPEN, 0);
}

// The first free row becomes the first of slot k's accesses.
// Kept: rows in lent words, linked by their numbers: there is no heap, and document 01 gives the layout.
// Kept: words and counts, IsRow c.edits k, Well c w; the head of this file says why.
fn take_access(w: &mut [u64], c: Counts, k: usize) -> Option<usize>
    requires { Well c w.old × IsRow c.edits k }
    ensures { Taken (access_heads c) w.old w.new 0 result
        (Moved (access_table c) (access_heads c) w.old w.new 0 k) }
{
    let of = Linked {
        table: Access::table(c),
        heads: Access::heads(c),
    };
    updates::move_first(w, Pair { of, a: 0, b: k })
}

// An access of a record that the edit does not name.
// Kept: a lock is put in order of its low point, an access first: what takes the row differs, and what is promised.
// Kept: words and counts, IsRow c.edits k, Well c w; the head of this file says why.
pub fn add_access(w: &mut [u64], c: Counts, k: usize, a: Access)
    requires { Well c w.old × IsRow c.edits k × (names (edit_at (decode_at c w.old) k) a.rec ≡ false)
        × (accesses_used (decode_at c w.old) < c.accesses) }
    ensures { Becomes c w.new (on_edit (decode_at c w.old) k (λ e. with_access e a)) }
{
    let Some(i) = take_access(w, c, k) else {
        return;
    };
    writes::put_access(w, c, i, a);
}

// An access of the record that row i, one of slot k's, names.
// Kept: words and counts, IsRow c.edits k, Well c w; the head of this file says why.
pub fn change_access(w: &mut [u64], c: Counts, k: usize, i: usize, a: Access)
    requires { Well c w.old × IsRow c.edits k × (1 ≤ occ i (access_rows c w.old k))
        × ((access_at c w.old i).rec ≡ a.rec) × (names_once (edit_at (decode_at c w.old) k) ≡ true) }
    ensures { Becomes c w.new (on_edit (decode_at c w.old) k (λ e. with_access e a)) }
{
    writes::put_access(w, c, i, a);
}

// The access takes the place of the edit's access of that record, which is in row i, or stands first where it has none.
// Kept: a match on an Option, with an arm for each.
// Kept: words and counts, IsRow c.edits k, Well c w; the head of this file says why.
pub fn set_access(w: &mut [u64], c: Counts, k: usize, i: Option<usize>, a: Access)
    requires { Well c w.old × IsRow c.edits k × (names_once (edit_at (decode_at c w.old) k) ≡ true)
        × (access_room (decode_at c w.old) k a.rec ≡ true) × AccessRow c w.old k a.rec i }
    ensures { Becomes c w.new (on_edit (decode_at c w.old) k (λ e. with_access e a)) }
{
    match i {
        None => add_access(w, c, k, a),
        Some(row) => change_access(w, c, k, row, a),
    }
}

// All of slot k's access rows become free.
// Kept: rows in lent words, linked by their numbers: there is no heap, and document 01 gives the layout.
// Kept: words and counts, IsRow c.edits k, Well c w; the head of this file says why.
fn empty_accesses(w: &mut [u64], c: Counts, k: usize)
    requires { Well c w.old × IsRow c.edits k }
    ensures { Becomes c w.new (on_edit (decode_at c w.old) k (λ e. with_accesses e [])) }
{
    let of = Linked {
        table: Access::table(c),
        heads: Access::heads(c),
    };
    updates::empty_after(w, Pair { of, a: k, b: 0 }, 0);
}

// The slot is free, without accesses; its generation stays.
// Kept: words and counts, IsRow c.edits k, Well c w; the head of this file says why.
pub fn free_slot(w: &mut [u64], c: Counts, k: usize)
    requires { Well c w.old × IsRow c.edits k }
    ensures { Becomes c w.new (on_edit (decode_at c w.old) k freed) }
{
    empty_accesses(w, c, k);
    set_state(w, c, k, FREE, 0);
}
