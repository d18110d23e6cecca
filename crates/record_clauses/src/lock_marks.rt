// Marks of lock rows, so that one step tells whether a lock's owner wrote the record: for each record that an edit has
// written, the rows of its own locks on that record are marked. Marks of the crate `clauses` has the same marks on
// lists. Rests on the crates `types`, `chains`, `tables` and `clauses`.
ghost use Rattle.std.specs.Prelude.{◌≡◌};
ghost use Rattle.chains.specs.Walker.{rows_left};
ghost use Rattle.tables.specs.Views.{edit_in};
ghost use Rattle.clauses.specs.Marks.{mark_own, mark_access, mark_accesses, mark_slots};
ghost use Rattle.clauses.specs.Views.{lock_rows};

use chains::{MARKS, Walk};
use tables::{Record, Row, Slot, Tables};
use types::{Access, Lock};

// The rows of a record's locks.
pub fn lock_rows<'a>(r: Record<'a>) -> Walk<'a>
    ensures { rows_left result ≡ lock_rows r.entry }
{
    let t = r.tables;
    t.part::<Lock>().rows(t.first::<Lock>(r.number + 1))
}

// A mark for each row of the lock table.
// Kept: the rows are lent words, which a check does not change, and memory is fixed: marks stand beside the rows
#[derive(Drop)]
pub struct LockMarks {
    pub rows: [bool; MARKS],
}

impl LockMarks {
    fn mark_own(&mut self, r: Record<'_>, k: u64)
        ensures { self.new.rows
            ≡ mark_own r.entry.tables.counts r.entry.tables.words.now k self.old.rows (lock_rows r.entry) }
    {
        for i in lock_rows(r) {
            if Lock::read(r.tables, i).owner == k {
                self.rows[i] = true;
            }
        }
    }

    fn mark_access(&mut self, s: Slot<'_>, a: Access)
        ensures { self.new.rows
            ≡ mark_access s.entry.tables.counts s.entry.tables.words.now s.entry.number self.old.rows a }
    {
        if a.value.written().is_none() {
            return;
        }
        let number = a.rec as usize;
        let t = s.tables;
        if t.counts.records <= number {
            return;
        }
        self.mark_own(Record { tables: t, number }, s.number as u64);
    }

    // Kept: what it shares with other steps for each access is the line of the loop: it changes marks, theirs words
    fn mark_slot(&mut self, s: Slot<'_>)
        ensures { self.new.rows
            ≡ mark_accesses s.entry.tables.counts s.entry.tables.words.now s.entry.number self.old.rows
            (edit_in s.entry).accesses }
    {
        for a in s.accesses() {
            self.mark_access(s, a);
        }
    }

    pub fn mark_slots(&mut self, t: Tables<'_>)
        ensures { self.new.rows ≡ mark_slots t.entry.counts t.entry.words.now self.old.rows t.entry.counts.edits }
    {
        for number in 1..=t.counts.edits {
            self.mark_slot(Slot { tables: t, number });
        }
    }
}
