// An edit's access of a record: its row, found by one walk, and the access in that row. On any words with these counts.
// Rests on the crates `types`, `chains` and `tables`.
ghost use Rattle.tables.specs.Decode.{AccessRow};
ghost use Rattle.lookups.specs.Accesses.{RowIn, InRow};

use tables::{A_RECORD, Row, Slot, Tables};
use types::{Access, Pending};

// The row of the slot's access of record r.
// Kept: `first_with` is the generic one, at the chain of the slot and the word of the record.
pub fn access_row(s: Slot<'_>, r: u64) -> Option<usize>
    ensures { AccessRow s.entry.tables.counts s.entry.tables.words.now s.entry.number r result }
{
    let t = s.tables;
    t.part::<Access>()
        .first_with(A_RECORD, r as usize, t.first::<Access>(s.number))
}

// The access of record r by the edit whose row of it is i.
// Kept: one fact of a row that `access_row` has found, or the index has told to be none; a type for the row would be
// made there and opened here.
pub fn access_in(t: Tables<'_>, r: u64, i: Option<usize>) -> Access
    requires { RowIn t.counts i }
    ensures { InRow t.entry.counts t.entry.words.now r i result }
{
    match i {
        Some(row) => Access::read(t, row),
        None => Access {
            rec: r,
            from: 0,
            value: Pending::Unwritten(0),
        },
    }
}
