// The clauses of a record: its locks in one pass, its versions, and what backs each version. `all_pass` is that of the
// locks of all records, for the clauses of slots need it (`soundness::check`); `records_sound` is the rest, for all
// records. It asks that the slots are sound, for then the marks of `lock_marks` say of each lock whether its owner
// wrote the record. Rests on the crates `types`, `meaning`, `locks`, `chains`, `tables`, `sweeps` and `clauses` and on
// the modules `all` and `lock_marks`.
#![tactic(auto)]

mod all;
mod lock_marks;

ghost use Rattle.std.specs.Prelude.{◌≡◌, true, suc, ◌≤◌, ◌<◌};
ghost use Rattle.chains.specs.Lists.{occ};
ghost use Rattle.types.specs.Limits.{LAST};
ghost use Rattle.meaning.specs.Lists.{all, any};
ghost use Rattle.meaning.specs.Store.{in_use};
ghost use Rattle.meaning.specs.Sound.{wrote_at, backs};
ghost use Rattle.tables.specs.Decode.{lock_at};
ghost use Rattle.tables.specs.Words.{locks_parted};
ghost use Rattle.tables.specs.Views.{rec_in};
ghost use Rattle.clauses.specs.Clauses.{mode_listed, span_lies, owner_used, lock_sound, lock_now, locks_pass, all_pass};
ghost use Rattle.clauses.specs.Clauses.{falls_below, ends_on, falls_to, versions_sound, is_backed};
ghost use Rattle.clauses.specs.Clauses.{record_rest, records_sound, slots_sound};
ghost use Rattle.clauses.specs.Marks.{Writers};
ghost use Rattle.clauses.specs.Views.{edits_in, lock_rows, SlotOf, committed_at};

pub use all::all_records;
use chains::MARKS;
use lock_marks::{LockMarks, lock_rows};
use sweeps::Swept;
use tables::{Record, Row, Slot, Tables};
use types::{COMMITTED, FREE, LAST, Lock, READ, SETTLED, Version, WRITE};

// The slot with this number, if there is one.
// Kept: `lookups::slot_of` is of a crate that this does not rest on, takes a handle, and gives no slot that is free.
fn slot_of<'a>(t: Tables<'a>, k: u64) -> Option<Slot<'a>>
    ensures { SlotOf t.entry k result }
{
    let number = k as usize;
    if number == 0 || t.counts.edits < number {
        return None;
    }
    Some(Slot { tables: t, number })
}

// The locks of a record, each by itself: its span, its mode, its owner.

fn span_lies(floor: u64, l: Lock) -> bool
    ensures { result ≡ span_lies floor l }
{
    floor < l.low && l.low <= l.high && l.high <= LAST
}

fn mode_listed(l: Lock) -> bool
    ensures { result ≡ mode_listed l }
{
    l.mode == READ || l.mode == WRITE
}

fn slot_used(t: Tables<'_>, k: u64) -> bool
    ensures { result ≡ in_use (edits_in t.entry) k }
{
    slot_of(t, k).is_some_and(|s| s.state() != FREE)
}

fn owner_used(t: Tables<'_>, l: Lock) -> bool
    ensures { result ≡ owner_used (edits_in t.entry) l }
{
    l.owner == SETTLED || slot_used(t, l.owner)
}

#[tactic(auto, unfolding(clauses::specs::Clauses::lock_sound))]
fn lock_sound(t: Tables<'_>, floor: u64, l: Lock) -> bool
    ensures { result ≡ lock_sound (edits_in t.entry) floor l }
{
    span_lies(floor, l) && mode_listed(l) && owner_used(t, l)
}

// In one pass along their chain: each by itself, and how it stands to those before it (the crate `sweeps`).

#[tactic(auto, unfolding(clauses::specs::Clauses::lock_now))]
fn lock_passes(t: Tables<'_>, floor: u64, s: Swept, l: Lock) -> bool
    ensures { result ≡ lock_now (edits_in t.entry) floor s l }
{
    lock_sound(t, floor, l) && sweeps::swept_now(s, l)
}

fn locks_pass(r: Record<'_>) -> bool
    ensures { result ≡ locks_pass (edits_in r.entry.tables) (rec_in r.entry) }
{
    let floor = r.floor();
    let mut s = sweeps::none_passed();
    for l in r.locks() {
        if !lock_passes(r.tables, floor, s, l) {
            return false;
        }
        s = sweeps::passed(s, l);
    }
    true
}

// The locks of all records. It comes before the clauses of slots and those of versions, which ask for it.
pub fn all_pass(t: Tables<'_>) -> bool
    ensures { result ≡ all_pass t.entry.counts t.entry.words.now }
{
    all_records(t, |r| locks_pass(r))
}

// Its versions: they fall strictly from LAST at most, none below the floor, none at 0, the last at the floor if that is
// above 0.

#[tactic(auto, unfolding(clauses::specs::Clauses::falls_below))]
fn falls_below(floor: u64, top: u64, p: u64) -> bool
    ensures { result ≡ falls_below floor top p }
{
    p < top && floor <= p && 0 < p
}

fn ends_at(floor: u64, top: u64) -> bool
    ensures { result ≡ ends_on floor top }
{
    floor == 0 || top == floor
}

fn versions_fall(r: Record<'_>, floor: u64) -> bool
    ensures { result ≡ falls_to floor (suc LAST) (rec_in r.entry).versions }
{
    let mut top = LAST + 1;
    for v in r.versions() {
        if !falls_below(floor, top, v.point) {
            return false;
        }
        top = v.point;
    }
    ends_at(floor, top)
}

#[tactic(auto, unfolding(clauses::specs::Clauses::versions_sound))]
fn versions_sound(r: Record<'_>) -> bool
    ensures { result ≡ versions_sound (rec_in r.entry) }
{
    let floor = r.floor();
    floor <= LAST && versions_fall(r, floor)
}

// Each version above the floor has a write lock on its point, settled or of an edit that wrote the record and committed
// at that point.

// Slot k has committed at p.
fn committed_at(t: Tables<'_>, k: u64, p: u64) -> bool
    ensures { result ≡ committed_at (edits_in t.entry) k p }
{
    slot_of(t, k).is_some_and(|s| s.state() == COMMITTED && s.point() == p)
}

// A record with marks that say of each of its lock rows whether the lock's owner wrote the record.
#[derive(Clone, Copy)]
struct Marked<'a, 'm> {
    record: Record<'a>,
    marks: &'m LockMarks,
    ghost wrote: { Writers record.tables.counts record.tables.words.now record.number marks.now.rows },
}

impl<'a, 'm> Marked<'a, 'm> {
    // Slot k, the owner of the record's lock in row i, wrote the record and committed at p.
    fn owner_wrote(self, k: u64, p: u64, i: usize) -> bool
        requires { (1 ≤ occ i (lock_rows self.record))
            × (k ≡ (lock_at self.record.tables.counts self.record.tables.words.now i).owner) }
        ensures { result ≡ wrote_at (edits_in self.entry.record.tables) k self.entry.record.number p }
    {
        committed_at(self.record.tables, k, p) && self.marks.rows[i]
    }

    // The record's lock in row i backs a version at p.
    #[tactic(auto, unfolding(meaning::specs::Sound::backs))]
    fn row_backs(self, p: u64, i: usize) -> bool
        requires { 1 ≤ occ i (lock_rows self.record) }
        ensures { result
            ≡ backs (edits_in self.entry.record.tables) self.entry.record.number p
            (lock_at self.entry.record.tables.counts self.entry.record.tables.words.now i) }
    {
        let l = Lock::read(self.record.tables, i);
        l.mode == WRITE
            && locks::covers(p, l)
            && (l.owner == SETTLED || self.owner_wrote(l.owner, p, i))
    }

    // Kept: the iterator's method is the generic function, and the line shows the test
    fn any_backs(self, p: u64) -> bool
        ensures { result
            ≡ any (backs (edits_in self.entry.record.tables)
            self.entry.record.number p) (rec_in self.entry.record).locks }
    {
        lock_rows(self.record).any(
            |i|
                requires { 1 ≤ occ i (lock_rows self.record) }
            { self.row_backs(p, i) },
        )
    }

    #[tactic(auto, unfolding(clauses::specs::Clauses::is_backed))]
    fn version_backed(self, v: Version) -> bool
        ensures { result
            ≡ is_backed (edits_in self.entry.record.tables)
            self.entry.record.number (rec_in self.entry.record) v }
    {
        v.point <= self.record.floor() || self.any_backs(v.point)
    }

    // Kept: the iterator's method is the generic function, and the line shows the test
    fn versions_backed(self) -> bool
        ensures { result
            ≡ all (is_backed (edits_in self.entry.record.tables)
            self.entry.record.number (rec_in self.entry.record)) (rec_in self.entry.record).versions }
    {
        self.record.versions().all(|v| self.version_backed(v))
    }

    // The clauses of a record whose locks pass.
    fn sound(self) -> bool
        ensures { result
            ≡ record_rest (edits_in self.entry.record.tables)
            self.entry.record.number (rec_in self.entry.record) }
    {
        versions_sound(self.record) && self.versions_backed()
    }
}

// Kept: the rows are lent words, which a check does not change, and memory is fixed: marks stand beside the rows
pub fn records_sound(t: Tables<'_>) -> bool
    requires { (locks_parted t.counts t.words.now ≡ true) × (slots_sound t.counts t.words.now ≡ true)
        × (all_pass t.counts t.words.now ≡ true) }
    ensures { result ≡ records_sound t.entry.counts t.entry.words.now }
{
    let mut marks = LockMarks {
        rows: [false; MARKS],
    };
    marks.mark_slots(t);
    (0..t.counts.records).all(
        |number|
            requires { (number < t.counts.records) × Writers t.counts t.words.now number marks.rows }
        {
            let record = Record { tables: t, number };
            Marked {
                record,
                marks: &marks,
            }
            .sound()
        },
    )
}
