// The five parts of a store's words, each a table of rows: where it lies. Rests on lib.rt and on the crates `types` and
// `chains`.
ghost use Rattle.std.specs.Prelude.{◌≡◌, ℕ, List};
ghost use Rattle.chains.specs.declared.Table.{Table};
ghost use Rattle.chains.specs.Table.{Lies};
ghost use Rattle.types.specs.declared.Counts.{Counts};
ghost use Rattle.tables.specs.Layout.{record_table, slot_table, version_table, lock_table, access_table, Ranged, Fits};
ghost use Rattle.tables.specs.Rows.{records_lie, slots_lie, versions_lie, locks_lie, accesses_lie};

use crate::{
    A_NEXT, ACCESS, HEADER, L_NEXT, LOCK, R_VERSION, RECORD, S_ACCESS, SLOT, V_NEXT, VERSION,
};
use chains::Table;
use types::{Access, Counts, Lock, Version};

// The table of a part, which lies in words of its counts.
pub trait Part {
    ghost table: { Counts → Table };

    // Kept: rows in lent words, linked by their numbers: there is no heap, and document 01 gives the layout. Only sums
    // ask that the counts are in range; a type for counts that were tested would be opened at each of the five.
    fn table(c: Counts) -> Table
        requires { Ranged c }
        ensures { result ≡ table c };

    ghost lies: { (c : Counts) (w : List ℕ) → Fits c w → Lies (table c) w };
}

// The parts of which no row stands on a chain: records, of which r is row r + 1, and edit slots.
pub struct Records;

pub struct Slots;

impl Part for Records {
    ghost table = { record_table };

    ghost lies = { records_lie };

    // Kept: rows in lent words, linked by their numbers: there is no heap, and document 01 gives the layout.
    #[tactic(auto, unfolding(crate::specs::Layout::record_table))]
    fn table(c: Counts) -> Table {
        Table {
            base: HEADER,
            stride: RECORD,
            off: R_VERSION,
            count: c.records,
        }
    }
}

impl Part for Slots {
    ghost table = { slot_table };

    ghost lies = { slots_lie };

    // Kept: rows in lent words, linked by their numbers: there is no heap, and document 01 gives the layout.
    #[tactic(auto, unfolding(crate::specs::Layout::slot_table, crate::specs::Layout::slot_base))]
    fn table(c: Counts) -> Table {
        Table {
            base: HEADER + c.records * RECORD,
            stride: SLOT,
            off: S_ACCESS,
            count: c.edits,
        }
    }
}

impl Part for Version {
    ghost table = { version_table };

    ghost lies = { versions_lie };

    // Kept: rows in lent words, linked by their numbers: there is no heap, and document 01 gives the layout.
    #[tactic(auto, unfolding(crate::specs::Layout::version_table, crate::specs::Layout::version_base))]
    fn table(c: Counts) -> Table {
        Table {
            base: HEADER + c.records * RECORD + c.edits * SLOT,
            stride: VERSION,
            off: V_NEXT,
            count: c.versions,
        }
    }
}

impl Part for Lock {
    ghost table = { lock_table };

    ghost lies = { locks_lie };

    // Kept: rows in lent words, linked by their numbers: there is no heap, and document 01 gives the layout.
    #[tactic(auto, unfolding(crate::specs::Layout::lock_table, crate::specs::Layout::lock_base))]
    fn table(c: Counts) -> Table {
        Table {
            base: HEADER + c.records * RECORD + c.edits * SLOT + c.versions * VERSION,
            stride: LOCK,
            off: L_NEXT,
            count: c.locks,
        }
    }
}

impl Part for Access {
    ghost table = { access_table };

    ghost lies = { accesses_lie };

    // Kept: rows in lent words, linked by their numbers: there is no heap, and document 01 gives the layout.
    #[tactic(auto, unfolding(crate::specs::Layout::access_table, crate::specs::Layout::access_base))]
    fn table(c: Counts) -> Table {
        Table {
            base: HEADER
                + c.records * RECORD
                + c.edits * SLOT
                + c.versions * VERSION
                + c.locks * LOCK,
            stride: ACCESS,
            off: A_NEXT,
            count: c.accesses,
        }
    }
}
