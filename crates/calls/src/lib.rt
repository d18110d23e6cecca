// The calls of document 01 on sound words: each equal to its definition in the crate `meaning`, and each leaving sound
// words. Rests on the crates `types`, `meaning`, `chains`, `tables`, `changes`, `slots`, `lookups`, `blocking` and
// `index`. They are for callers who prove the words sound (`requires sound_words`), once for many calls: no call here
// looks at more than the chains it touches. The crate `store` has the same calls for everybody, with the check first.
// Kept, words and counts: lent to be changed; over a struct of both each would promise, too, that they stay (Rattle's
// docs/BORROWS.md).
// Kept, Ready c w: `Well` and more, of words before a change; a ghost field would say it of the words after it.
// Kept, Ready of tables: as a field of `Tables` it would be asked for by the check of words, too, which makes `Tables`
// before it has found them sound; a struct beside it would hold the same two again.
// Kept, IsRow c.edits k: no words in it; a struct of counts and number would be made anew at each call, and where a
// slot goes with a record, two would have to be said to have the same counts.
// Kept, r < c.records: no words in it, for the same reason.
// Kept, sound words: what a caller proves once for many calls, of words that each call changes.
// Kept, Indexed: between words that change and an index, which C callers lend one beside the other.
// Kept, words and index: two memories that C callers lend, one of them to be changed.
// Kept, handle and record: the parameters of the call in document 01.
// Kept, index and slot: as the call has them; the `Slot` of `access_row` ends before the words change.
#![tactic(auto)]

ghost use Rattle.std.specs.Prelude.{◌≡◌, true, ◌≤◌, ◌<◌, ltb};
ghost use Rattle.chains.specs.Walk.{IsRow};
ghost use Rattle.meaning.specs.Edits.{beginning, writing};
ghost use Rattle.types.specs.Limits.{LAST, SLOTS, GENERATIONS};
ghost use Rattle.meaning.specs.Outcomes.{refuse, handle_at};
ghost use Rattle.meaning.specs.Records.{viewing};
ghost use Rattle.types.specs.Replies.{number, details, of_begin, of_done, of_view};
ghost use Rattle.meaning.specs.Store.{edit_at};
ghost use Rattle.tables.specs.Decode.{decode_at};
ghost use Rattle.tables.specs.Layout.{header_ok};
ghost use Rattle.tables.specs.Views.{rec_in, store_in};
ghost use Rattle.tables.specs.Words.{lent, decode, sound_words};
ghost use Rattle.calls.specs.Contract.{Acts, Ready, Makes};
ghost use Rattle.index.specs.Index.{Indexed};
ghost use Rattle.calls.specs.Grants.{refusal_by, Small};
ghost use Rattle.calls.specs.Parts.{write_open};
ghost use Rattle.calls.specs.Checks.{record_in, point_from, above_floor, known_slot, open_slot};

use blocking::{Blocked, Judgement};
use tables::{Record, Slot, Tables};
use types::{Access, Counts, Handle, LAST, Pending, Point, Refusal, Seen};

// Checks that several calls share, each with its refusal.

// The record of this number: 5 where there is none.
pub fn record(c: Counts, r: u64) -> Result<usize, Refusal>
    ensures { result ≡ record_in c.records r }
{
    let r = r as usize;
    if c.records <= r {
        return Err(Refusal::NoRecord);
    }
    Ok(r)
}

// The number of a point from `least` to LAST: 6 where it is another.
pub fn point(least: u64, p: Point) -> Result<u64, Refusal>
    ensures { result ≡ point_from least p.0 }
{
    let q = u64::from(p);
    if q < least || LAST < q {
        return Err(Refusal::BadPoint);
    }
    Ok(q)
}

// That point p lies above the record's floor: 7 where it does not.
pub fn above_floor(x: Record<'_>, p: u64) -> Result<(), Refusal>
    ensures { result ≡ above_floor (rec_in x.entry).floor p }
{
    if p <= x.floor() {
        return Err(Refusal::BelowFloor);
    }
    Ok(())
}

// The slot of the edit that the handle names: 2 where it names none.
pub fn known_slot(t: Tables<'_>, h: Handle) -> Result<usize, Refusal>
    ensures { result ≡ known_slot (store_in t.entry) h.0 }
{
    if !lookups::known(t, h) {
        return Err(Refusal::NoEdit);
    }
    Ok(h.slot() as usize)
}

// The slot of an open edit: 3 where it has ended.
pub fn open_slot(t: Tables<'_>, h: Handle) -> Result<usize, Refusal>
    ensures { result ≡ open_slot (store_in t.entry) h.0 }
{
    let k = known_slot(t, h)?;
    if !lookups::is_open(t, h) {
        return Err(Refusal::EditEnded);
    }
    Ok(k)
}

// The handle of slot k's edit. Slot 0 and slots past the end read as never begun.
// Kept: so document 01 has it, and a refusal Held has a handle: a None would be made that handle at each call.
pub fn handle_at(t: Tables<'_>, k: usize) -> Handle
    requires { (k ≤ SLOTS) × ((edit_at (store_in t) k).generation < GENERATIONS) }
    ensures { result.0 ≡ handle_at (store_in t.entry) k }
{
    if k < 1 || t.counts.edits < k {
        return Handle::of(0, k as u8);
    }
    let g = Slot {
        tables: t,
        number: k,
    }
    .generation();
    Handle::of(g as u16, k as u8)
}

// Why a blocked point cannot be had: it is frozen, or held by a slot.
// Kept: Ready of tables; the head of this file says why.
pub fn judge(t: Tables<'_>, b: Blocked) -> Refusal
    requires { Ready t.counts t.words.now × Small b.judgement }
    ensures { refuse (number result) (details result) ≡ refusal_by (store_in t.entry) b.judgement }
{
    match b.judgement {
        Judgement::Frozen => Refusal::Frozen,
        Judgement::Held(k) => Refusal::Held(handle_at(t, k as usize)),
    }
}

// The call Begin.
// Kept: sound words; the head of this file says why.
pub fn begin(w: &mut [u64]) -> Result<Handle, Refusal>
    requires { sound_words (lent w.old) ≡ true }
    ensures { Acts beginning (lent w.old) (lent w.new) (of_begin result) }
{
    let c = tables::counts_of(w);
    let before = Tables {
        words: w,
        counts: c,
    };
    let k = lookups::free_slot(before).ok_or(Refusal::NoSlot)?;
    slots::open_slot(w, c, k);
    let after = Tables {
        words: w,
        counts: c,
    };
    Ok(handle_at(after, k))
}

// Write, once the edit is open and the record there: one access row for a record new to the edit.
// Kept: words and counts, words and index, index and slot, IsRow c.edits k, r < c.records, Ready c w, Indexed; the head
// of this file says why.
fn write_open(
    w: &mut [u64],
    c: Counts,
    k: usize,
    rec: u64,
    pending: u64,
    ix: &[u16],
) -> Result<(), Refusal>
    requires { Ready c w.old × IsRow c.edits k × (rec < c.records) × Indexed (decode_at c w.old) ix.now }
    ensures { Makes c (write_open (decode_at c w.old) k rec pending) w.old w.new (of_done result) }
{
    let tables = Tables {
        words: w,
        counts: c,
    };
    let slot = Slot { tables, number: k };
    let i = index::access_row(slot, rec, ix);
    if !lookups::access_room(tables, i) {
        return Err(Refusal::NoAccessRow);
    }
    let a = Access {
        rec,
        value: Pending::Written(pending),
        ..lookups::access_in(tables, rec, i)
    };
    slots::set_access(w, c, k, i, a);
    Ok(())
}

// The call Write.
// Kept: words and index, handle and record, Indexed, sound words; the head of this file says why.
pub fn write(w: &mut [u64], h: Handle, rec: u64, value: u64, ix: &[u16]) -> Result<(), Refusal>
    requires { (sound_words (lent w.old) ≡ true) × Indexed (decode (lent w.old)) ix.now }
    ensures { Acts (writing h.0 rec value) (lent w.old) (lent w.new) (of_done result) }
{
    let c = tables::counts_of(w);
    let tables = Tables {
        words: w,
        counts: c,
    };
    let k = open_slot(tables, h)?;
    record(c, rec)?;
    write_open(w, c, k, rec, value, ix)
}

// The call View. It looks at one record's floor and versions, so words with a good header are enough.
// Kept: the one place that makes a Seen of a Version, whose number becomes a Point.
pub fn view(w: &[u64], rec: u64, p: Point) -> Result<Seen, Refusal>
    requires { header_ok w.now ≡ true }
    ensures { of_view result ≡ (viewing rec p.0 (decode (lent w.now))).reply }
{
    let c = tables::counts_of(w);
    let r = record(c, rec)?;
    let q = point(0, p)?;
    let tables = Tables {
        words: w,
        counts: c,
    };
    let x = Record { tables, number: r };
    // the floor itself can be viewed
    above_floor(x, q + 1)?;
    let v = lookups::newest_at(x, q);
    Ok(Seen {
        point: Point::from(v.point),
        value: v.value,
    })
}
