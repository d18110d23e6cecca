// Rooms: whether a table has the free rows that a change takes. On well-formed words, whose free chain holds every row
// that no other chain has. Rests on the crates `types`, `meaning`, `chains` and `tables`.
// Kept, Well of tables: of words that are only read, these three alone ask it; a second type beside `Tables` would be
// made at each call of them.
ghost use Rattle.std.specs.Prelude.{◌≡◌, true, ◌+◌, length, leb};
ghost use Rattle.chains.specs.Partition.{partition, used};
ghost use Rattle.meaning.specs.Store.{written_of};
ghost use Rattle.meaning.specs.Outcomes.{lock_room, version_room};
ghost use Rattle.tables.specs.Words.{Well};
ghost use Rattle.tables.specs.Views.{store_in, edit_in};
ghost use Rattle.lookups.specs.Accesses.{RoomBeside};

use tables::{Row, Slot, Tables};
use types::{Access, Lock, Version};

// Whether the chains of a kind of row leave so many rows free; no more rows than that are walked.
fn has_free<R: Row>(t: Tables<'_>, most: usize) -> bool
    requires { partition (R.table t.counts) (R.heads t.counts) t.words.now ≡ true }
    ensures { result
        ≡ leb (used (R.table t.entry.counts) (R.heads t.entry.counts) t.entry.words.now + most)
        (R.table t.entry.counts).count }
{
    t.part::<R>().rows(t.first::<R>(0)).take(most).count() == most
}

// Kept: Well of tables; the head of this file says why.
pub fn lock_room(t: Tables<'_>) -> bool
    requires { Well t.counts t.words.now }
    ensures { result ≡ lock_room (store_in t.entry) }
{
    has_free::<Lock>(t, 1)
}

// Room for an access of a record by the edit whose row of it is i.
// Kept: `has_free` is the generic one; what a call needs is a line in each.
// Kept: Well of tables; the head of this file says why.
pub fn access_room(t: Tables<'_>, i: Option<usize>) -> bool
    requires { Well t.counts t.words.now }
    ensures { RoomBeside t.entry.counts t.entry.words.now i result }
{
    i.is_some() || has_free::<Access>(t, 1)
}

// Kept: the method of the iterator is the generic one; the line shows the test.
fn written_count(s: Slot<'_>) -> usize
    ensures { result ≡ length (written_of (edit_in s.entry)) }
{
    s.accesses().filter(|a| a.value.written().is_some()).count()
}

// Kept: `has_free` is the generic one.
// Kept: Well of tables; the head of this file says why.
pub fn version_room(s: Slot<'_>) -> bool
    requires { Well s.tables.counts s.tables.words.now }
    ensures { result ≡ version_room (store_in s.entry.tables) s.entry.number }
{
    has_free::<Version>(s.tables, written_count(s))
}
