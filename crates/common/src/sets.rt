// The common set of an edit, and one access of it. Who holds one holds its facts too, so that what is over it has no
// `requires` for them. Rests on the crates `types`, `meaning`, `tables` and `blocking`.
ghost use Rattle.std.specs.Prelude.{◌≡◌, true, ◌<◌};
ghost use Rattle.meaning.specs.Sound.{names_existing};
ghost use Rattle.tables.specs.Decode.{records_of};
ghost use Rattle.tables.specs.Views.{edit_in};
ghost use Rattle.blocking.specs.Search.{AllRise};

use tables::{Record, Slot, Tables};
use types::Access;

// The common set of a slot's edit, of which every access names a record that there is. Every record's locks rise.
#[derive(Clone, Copy)]
pub struct CommonSet<'a> {
    pub slot: Slot<'a>,
    ghost rise: { AllRise slot.tables.counts slot.tables.words.now },
    ghost named: { names_existing (records_of slot.tables.counts slot.tables.words.now) (edit_in slot) ≡ true },
}

// One access, which limits the points of the edit that has the slot of this number.
#[derive(Clone, Copy)]
pub struct Limit<'a> {
    pub tables: Tables<'a>,
    pub slot: usize,
    pub access: Access,
    ghost rise: { AllRise tables.counts tables.words.now },
    ghost there: { access.rec < tables.counts.records },
}

impl<'a> CommonSet<'a> {
    ghost use Rattle.std.specs.Prelude.{◌≡◌, ◌<◌};

    // How one access limits the set.
    pub fn limit(self, a: Access) -> Limit<'a>
        requires { a.rec < self.slot.tables.counts.records }
        ensures { (result.tables ≡ self.entry.slot.tables) × (result.slot ≡ self.entry.slot.number)
            × (result.access ≡ a) }
    {
        Limit {
            tables: self.slot.tables,
            slot: self.slot.number,
            access: a,
        }
    }
}

impl<'a> Limit<'a> {
    ghost use Rattle.std.specs.Prelude.{◌≡◌};

    // The record that it names.
    // Kept: of the tables and the number in the access, so it is no conversion of one value.
    pub(crate) fn named(self) -> Record<'a>
        ensures { (result.number ≡ self.entry.access.rec) × (result.tables ≡ self.entry.tables) }
    {
        Record {
            tables: self.tables,
            number: self.access.rec as usize,
        }
    }

    // The slot of the edit, as locks name it.
    pub(crate) fn owner(self) -> u64
        ensures { result ≡ self.entry.slot }
    {
        self.slot as u64
    }
}
