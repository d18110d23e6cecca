// The clauses of a slot: its words, the records that its accesses name, its reads, and its point; `slots_sound` is all
// of them for all slots. It asks that the locks of every record rise, for so does the search for the common set. Rests
// on the crates `types`, `meaning`, `locks`, `tables`, `lookups`, `blocking` (for that a record's locks rise), `common`
// (for the common set) and `clauses`.
// Kept, AllRise: of all records, while each function is over a slot or the tables; `CommonSet`, which the search is
// over, holds it, and a second struct would be made for one call and opened in it.
#![tactic(auto)]

ghost use Rattle.std.specs.Prelude.{◌≡◌, true, suc, ◌-◌};
ghost use Rattle.meaning.specs.Lists.{any};
ghost use Rattle.meaning.specs.Sound.{names_existing, starts_read, is_present, point_common, sound_edit};
ghost use Rattle.meaning.specs.Sound.{state_listed, generation_listed, point_listed, free_idle};
ghost use Rattle.tables.specs.Views.{rec_in, edit_in};
ghost use Rattle.blocking.specs.Search.{AllRise};
ghost use Rattle.clauses.specs.Clauses.{read_of, accesses_sound, slot_listed, Stamps, slots_sound};
ghost use Rattle.clauses.specs.Views.{records_in};

use common::CommonSet;
use tables::{Record, Slot, Tables};
use types::{ABORTED, COMMITTED, FREE, GENERATIONS, MAX_RECORDS};

// A record read: the edit has a read lock that starts just after the point read, and that point is a present version,
// or 0 under floor 0.

// Kept: the iterator's method is the generic function, and the line shows the test
fn has_read_lock(r: Record<'_>, k: u64, from: u64) -> bool
    ensures { result ≡ any (starts_read k from) (rec_in r.entry).locks }
{
    r.locks().any(|l| locks::starts_read(k, from, l))
}

fn is_present(r: Record<'_>, p: u64) -> bool
    ensures { result ≡ is_present (rec_in r.entry) (suc p) }
{
    lookups::version_stands(r, p) || (p == 0 && r.floor() == 0)
}

// `from` is the point read + 1, or 0 where the edit has not read the record.
// Kept: tried with `is_none_or`: the check learns nothing of that closure, so its clause would have to be written out.
fn read_sound(r: Record<'_>, k: u64, from: u64) -> bool
    ensures { result ≡ read_of (rec_in r.entry) k from }
{
    match from.checked_sub(1) {
        Some(p) => has_read_lock(r, k, from) && is_present(r, p),
        None => true,
    }
}

// The accesses of a slot: each names an existing record, at most once, and its read is in order. A record that the slot
// has named bears its number as a stamp; slots rise, so an older stamp is lower.
// Kept: a record is lent words, which a check does not change, and memory is fixed: stamps stand beside the records
fn accesses_sound(s: Slot<'_>, stamps: &mut [u8; MAX_RECORDS]) -> bool
    requires { Stamps s.number stamps.old }
    ensures { (result
        ≡ accesses_sound (records_in s.entry.tables) s.entry.number stamps.old
        (edit_in s.entry).accesses)
        × Stamps s.entry.number stamps.new }
{
    let stamp = s.number as u8;
    let t = s.tables;
    for a in s.accesses() {
        let number = a.rec as usize;
        if t.counts.records <= number {
            return false;
        }
        if stamps[number] == stamp {
            return false;
        }
        stamps[number] = stamp;
        let r = Record { tables: t, number };
        if !read_sound(r, s.number as u64, a.from) {
            return false;
        }
    }
    true
}

// The words of a slot.

#[tactic(auto, unfolding(meaning::specs::Sound::state_listed))]
fn state_listed(s: Slot<'_>) -> bool
    ensures { result ≡ state_listed (edit_in s.entry) }
{
    s.state() <= ABORTED
}

#[tactic(auto, unfolding(meaning::specs::Sound::generation_listed))]
fn generation_listed(s: Slot<'_>) -> bool
    ensures { result ≡ generation_listed (edit_in s.entry) }
{
    s.generation() < GENERATIONS
}

#[tactic(auto, unfolding(meaning::specs::Sound::point_listed))]
fn point_listed(s: Slot<'_>) -> bool
    ensures { result ≡ point_listed (edit_in s.entry) }
{
    s.state() == COMMITTED || s.point() == 0
}

#[tactic(auto, unfolding(meaning::specs::Sound::free_idle))]
fn free_idle(s: Slot<'_>) -> bool
    ensures { result ≡ free_idle (edit_in s.entry) }
{
    s.state() != FREE || s.accesses().next().is_none()
}

#[tactic(auto, unfolding(clauses::specs::Clauses::slot_listed))]
fn slot_listed(s: Slot<'_>) -> bool
    ensures { result ≡ slot_listed (edit_in s.entry) }
{
    state_listed(s) && generation_listed(s) && point_listed(s) && free_idle(s)
}

// A committed edit's point is in its common set.
// Kept: AllRise; the head of this file says why.
#[tactic(auto, unfolding(meaning::specs::Sound::point_common))]
fn point_common(s: Slot<'_>) -> bool
    requires { (names_existing (records_in s.tables) (edit_in s) ≡ true)
        × AllRise s.tables.counts s.tables.words.now }
    ensures { result
        ≡ point_common (records_in s.entry.tables) s.entry.number (edit_in s.entry) }
{
    s.state() != COMMITTED || CommonSet { slot: s }.contains(s.point())
}

// The clauses of a slot, and of all slots.

// Kept: a record is lent words, which a check does not change, and memory is fixed: stamps stand beside the records
// Kept: AllRise; the head of this file says why.
fn slot_sound(s: Slot<'_>, stamps: &mut [u8; MAX_RECORDS]) -> bool
    requires { Stamps (s.number - 1) stamps.old × AllRise s.tables.counts s.tables.words.now }
    ensures { (result
        ≡ sound_edit (records_in s.entry.tables) s.entry.number (edit_in s.entry))
        × Stamps s.entry.number stamps.new }
{
    slot_listed(s) && (accesses_sound(s, stamps) && point_common(s))
}

// Kept: a record is lent words, which a check does not change, and memory is fixed: stamps stand beside the records
// Kept: AllRise; the head of this file says why.
pub fn slots_sound(t: Tables<'_>) -> bool
    requires { AllRise t.counts t.words.now }
    ensures { result ≡ slots_sound t.entry.counts t.entry.words.now }
{
    // Kept: a stamp is the number of a slot; with flags in its place each slot would first clear those of all records
    let mut stamps = [0u8; MAX_RECORDS];
    for number in 1..=t.counts.edits {
        if !slot_sound(Slot { tables: t, number }, &mut stamps) {
            return false;
        }
    }
    true
}
