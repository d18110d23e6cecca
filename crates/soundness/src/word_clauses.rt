// The clauses on the words: every row is on exactly one chain, lock rows name the record of their chain, written marks
// are 0 or 1. `formed_at` is all of them; it equals `formed_at` of tables/specs/Words. Rests on the crates `types`,
// `chains`, `tables` and `record_clauses`.
ghost use Rattle.std.specs.Prelude.{◌≡◌, ◌&&◌, ◌<◌, ◌≤◌};
ghost use Rattle.chains.specs.Lists.{all_of};
ghost use Rattle.chains.specs.Table.{rows_of};
ghost use Rattle.chains.specs.Walker.{fields_left, with_word};
ghost use Rattle.tables.specs.Decode.{lock_rows, access_rows};
ghost use Rattle.tables.specs.Words.{versions_parted, locks_parted, accesses_parted, names_record, marked, locks_named};
ghost use Rattle.tables.specs.Words.{marks_listed, formed_at};

use chains::{Fields, Linked};
use record_clauses::all_records;
use tables::{A_WRITTEN, L_RECORD, Record, Row, Slot, Tables};
use types::{Access, Lock, Version};

// Every row is on exactly one chain, in each of the three tables.

fn linked<R: Row>(t: Tables<'_>) -> Linked
    ensures { result ≡ record { table = R.table t.entry.counts; heads = R.heads t.entry.counts } }
{
    Linked {
        table: R::table(t.counts),
        heads: R::heads(t.counts),
    }
}

fn chains_parted(t: Tables<'_>) -> bool
    ensures { result
        ≡ (versions_parted t.entry.counts t.entry.words.now
        && (locks_parted t.entry.counts t.entry.words.now && accesses_parted t.entry.counts t.entry.words.now)) }
{
    chains::partitions_ok(
        t.words,
        linked::<Version>(t),
        linked::<Lock>(t),
        linked::<Access>(t),
    )
}

// The rows of an owner's chain, each with its word o.
// Kept: owner ≤ owners, o < stride: each caller gives a constant offset and the number of a record or a slot, whose
// type holds its bound; a struct of owner and offset would be made at each of the two calls and opened here.
#[tactic(auto, unfolding(chains::specs::Table::rows_of))]
fn words_of<'a, R: Row>(t: Tables<'a>, owner: usize, o: usize) -> Fields<'a>
    requires { owner ≤ (R.heads t.counts).owners × (o < (R.table t.counts).stride) }
    ensures { fields_left result
        ≡ with_word (R.table t.entry.counts) t.entry.words.now o
        (rows_of (R.table t.entry.counts) (R.heads t.entry.counts) t.entry.words.now owner) }
{
    t.part::<R>().fields(o, t.first::<R>(owner))
}

// Lock rows name their chain's record.

// Kept: the iterator's method is the generic function, and the line shows the test
fn record_named(r: Record<'_>) -> bool
    ensures { result
        ≡ all_of (names_record r.entry.tables.counts r.entry.tables.words.now r.entry.number)
        (lock_rows r.entry.tables.counts r.entry.tables.words.now r.entry.number) }
{
    words_of::<Lock>(r.tables, r.number + 1, L_RECORD).all(|(_, x)| x == r.number)
}

// Kept: `all_records` is the generic function, and the line shows the test
fn locks_named(t: Tables<'_>) -> bool
    ensures { result ≡ locks_named t.entry.counts t.entry.words.now }
{
    all_records(t, |r| record_named(r))
}

// Written marks are 0 or 1.

// Kept: the iterator's method is the generic function, and the line shows the test
fn slot_marked(s: Slot<'_>) -> bool
    ensures { result
        ≡ all_of (marked s.entry.tables.counts s.entry.tables.words.now)
        (access_rows s.entry.tables.counts s.entry.tables.words.now s.entry.number) }
{
    words_of::<Access>(s.tables, s.number, A_WRITTEN).all(|(_, x)| x <= 1)
}

// Kept: the iterator's method is the generic function, and the line shows the test
fn marks_listed(t: Tables<'_>) -> bool
    ensures { result ≡ marks_listed t.entry.counts t.entry.words.now }
{
    (0..t.counts.edits).all(
        |k|
            requires { k < t.counts.edits }
        {
            slot_marked(Slot {
                tables: t,
                number: k + 1,
            })
        },
    )
}

pub fn formed_at(t: Tables<'_>) -> bool
    ensures { result ≡ formed_at t.entry.counts t.entry.words.now }
{
    chains_parted(t) && (locks_named(t) && marks_listed(t))
}
