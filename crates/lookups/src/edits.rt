// Edits: whether a handle is known and open, and the lowest free slot. Each equals a function of the decoded store, on
// any words with these counts. Rests on the crates `types`, `meaning`, `chains` and `tables`.
ghost use Rattle.std.specs.Prelude.{◌≡◌};
ghost use Rattle.meaning.specs.Store.{in_use};
ghost use Rattle.meaning.specs.Outcomes.{knows, is_open};
ghost use Rattle.tables.specs.Views.{store_in};
ghost use Rattle.lookups.specs.Slots.{SlotOf, first_free};

use tables::{Slot, Tables};
use types::{FREE, Handle, OPEN};

// The slot of a handle, if there is one and it is in use.
fn slot_of<'a>(t: Tables<'a>, h: Handle) -> Option<Slot<'a>>
    ensures { SlotOf t.entry h.0 result }
{
    let number = h.slot() as usize;
    if number == 0 || t.counts.edits < number {
        return None;
    }
    let s = Slot { tables: t, number };
    if s.state() == FREE {
        return None;
    }
    Some(s)
}

pub fn known(t: Tables<'_>, h: Handle) -> bool
    ensures { result ≡ knows (store_in t.entry) h.0 }
{
    slot_of(t, h).is_some_and(|s| s.generation() == h.generation())
}

// Kept: `slot_of` is what it shares with `known`; what is asked of the slot is a line in each.
pub fn is_open(t: Tables<'_>, h: Handle) -> bool
    ensures { result ≡ is_open (store_in t.entry) h.0 }
{
    slot_of(t, h).is_some_and(|s| s.state() == OPEN)
}

// The lowest free slot.
pub fn free_slot(t: Tables<'_>) -> Option<usize>
    ensures { result ≡ first_free (store_in t.entry) }
{
    for number in 1..=t.counts.edits {
        if (Slot { tables: t, number }).state() == FREE {
            return Some(number);
        }
    }
    None
}
