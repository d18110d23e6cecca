// Read on sound words: equal to its definition in the crate `meaning`, and leaving sound words. For callers who prove
// the words sound (`requires sound_words`), as the calls of `calls`. It goes along the edit's accesses, unless the
// index says that the record is new to it, and along one record's versions and locks. Rests on the crates `types`,
// `meaning`, `locks`, `chains`, `tables`, `changes`, `slots`, `lookups`, `blocking`, `index` and `calls`.
// Kept, words and counts: lent to be changed; over a struct of both each would promise, too, that they stay (Rattle's
// docs/BORROWS.md).
// Kept, Ready c w: `Well` and more, of words before a change; a ghost field would say it of the words after it.
// Kept, IsRow c.edits k: no words in it; a struct of counts and number would be made anew at each call, and where a
// slot goes with a record, two would have to be said to have the same counts.
// Kept, r < c.records: no words in it, for the same reason.
// Kept, sound words: what a caller proves once for many calls, of words that each call changes.
// Kept, Indexed: between words that change and an index, which C callers lend one beside the other.
// Kept, words and index: two memories that C callers lend, one of them to be changed.
// Kept, AccessRow: what `index::access_row` found, of words before the change.
// Kept, m ≤ LAST: what `calls::point` found; a struct of a bounded number would be opened at each comparison.
// Kept, handle and record: the parameters of the call in document 01.
// Kept, index and slot: as the call has them; the `Slot` of `access_row` ends before the words change.
#![tactic(auto)]

ghost use Rattle.std.specs.Prelude.{◌≡◌, true, ◌≤◌, ◌<◌};
ghost use Rattle.chains.specs.Walk.{IsRow};
ghost use Rattle.types.specs.Limits.{LAST};
ghost use Rattle.meaning.specs.Locking.{read_new, read_open, reading};
ghost use Rattle.types.specs.Replies.{of_read};
ghost use Rattle.types.specs.declared.Extent.TheVariants.{Part};
ghost use Rattle.tables.specs.Decode.{decode_at, AccessRow};
ghost use Rattle.tables.specs.Words.{lent, decode, sound_words};
ghost use Rattle.index.specs.Index.{Indexed};
ghost use Rattle.calls.specs.Contract.{Acts, Ready, Makes};
ghost use Rattle.calls.specs.Parts.{read_taken};

use blocking::Points;
use locks::Asker;
use tables::{Record, Slot, Tables};
use types::{Access, Counts, Extent, Found, Handle, Lock, Pending, Point, READ, Refusal, Version};

// Read, once the points are granted: one access row for a record new to the edit, one lock row for the points.
// Kept: words and counts, IsRow c.edits k, Ready c w, r < c.records, AccessRow; the head of this file says why.
fn read_taken(
    w: &mut [u64],
    c: Counts,
    k: usize,
    r: usize,
    i: Option<usize>,
    from: u64,
    end: u64,
    v: Version,
) -> Result<Found, Refusal>
    requires { Ready c w.old × IsRow c.edits k × (r < c.records) × AccessRow c w.old k r i }
    ensures { Makes c (read_taken (decode_at c w.old) k r from end v) w.old w.new (of_read result) }
{
    let tables = Tables {
        words: w,
        counts: c,
    };
    if !lookups::access_room(tables, i) {
        return Err(Refusal::NoAccessRow);
    }
    if !lookups::lock_room(tables) {
        return Err(Refusal::NoLockRow);
    }
    slots::set_access(
        w,
        c,
        k,
        i,
        Access {
            rec: r as u64,
            from,
            value: Pending::Unwritten(0),
        },
    );
    changes::add_lock(
        w,
        c,
        r,
        Lock {
            low: from,
            high: end,
            mode: READ,
            owner: k as u64,
        },
    );
    let value = v.value;
    Ok(Found::Read(Point::from(v.point), Point::from(end), value))
}

// Read, of a record that the edit has neither written nor read; i is the row of its access, if it has one.
// Kept: words and counts, IsRow c.edits k, Ready c w, r < c.records, AccessRow, m ≤ LAST; the head of this file says
// why.
// Kept: a `match`; `map_err` was tried for the same call in `lock_wanted` of the crate `locking`, and not proved.
fn read_new(
    w: &mut [u64],
    c: Counts,
    k: usize,
    r: usize,
    i: Option<usize>,
    m: u64,
    extent: Extent,
) -> Result<Found, Refusal>
    requires { Ready c w.old × IsRow c.edits k × (r < c.records) × (m ≤ LAST) × AccessRow c w.old k r i }
    ensures { Makes c (read_new (decode_at c w.old) k r m extent) w.old w.new (of_read result) }
{
    let tables = Tables {
        words: w,
        counts: c,
    };
    let x = Record { tables, number: r };
    calls::above_floor(x, m)?;
    let v = lookups::newest_below(x, m);
    let p = Points {
        low: v.point + 1,
        high: m,
    };
    let a = Asker {
        mode: READ,
        slot: k as u64,
    };
    match blocking::run(x, a, p, extent) {
        Err(b) => Err(calls::judge(tables, b)),
        Ok((from, end)) => read_taken(w, c, k, r, i, from, end, v),
    }
}

// Read, once its first tests have passed: an own pending value, the version read before, or a new read.
// Kept: words and counts, words and index, index and slot, IsRow c.edits k, Ready c w, r < c.records, m ≤ LAST,
// Indexed; the head of this file says why.
fn read_open(
    w: &mut [u64],
    c: Counts,
    k: usize,
    r: usize,
    m: u64,
    extent: Extent,
    ix: &[u16],
) -> Result<Found, Refusal>
    requires { Ready c w.old × IsRow c.edits k × (r < c.records) × (m ≤ LAST) × Indexed (decode_at c w.old) ix.now }
    ensures { Makes c (read_open (decode_at c w.old) k r m extent) w.old w.new (of_read result) }
{
    let tables = Tables {
        words: w,
        counts: c,
    };
    let slot = Slot { tables, number: k };
    let i = index::access_row(slot, r as u64, ix);
    let a = lookups::access_in(tables, r as u64, i);
    if let Some(value) = a.value.written() {
        return Ok(Found::Own(value));
    }
    if 0 < a.from {
        let v = lookups::version_on(Record { tables, number: r }, a.from - 1);
        let value = v.value;
        return Ok(Found::Again(Point::from(a.from - 1), value));
    }
    read_new(w, c, k, r, i, m, extent)
}

// The call Read.
// Kept: words and index, handle and record, Indexed, sound words; the head of this file says why.
pub fn read(
    w: &mut [u64],
    h: Handle,
    rec: u64,
    m: Point,
    extent: Extent,
    ix: &[u16],
) -> Result<Found, Refusal>
    requires { (sound_words (lent w.old) ≡ true) × Indexed (decode (lent w.old)) ix.now }
    ensures { Acts (reading h.0 rec m.0 extent) (lent w.old) (lent w.new) (of_read result) }
{
    let c = tables::counts_of(w);
    let tables = Tables {
        words: w,
        counts: c,
    };
    let k = calls::open_slot(tables, h)?;
    let r = calls::record(c, rec)?;
    let n = calls::point(1, m)?;
    read_open(w, c, k, r, n, extent, ix)
}
