// The changes of a record that the calls are made of: its locks and its versions; those of Purge are the crate `trims`.
// Each leaves the words well formed and equals a function of the decoded store; the callers prove that the words are
// well formed (`Well`), that slots and records are in range, and that there is room, in the words of the meaning. Rests
// on the crates `types`, `meaning`, `locks`, `chains`, `updates`, `tables` and `writes`.
// Kept, words and counts: a struct that holds lent `&mut` words would have each contract say that it keeps them
// Kept, Well c w: a fact of the words, which a struct over `&mut` words cannot hold while they change
// Kept, r < c.records: no words in it; a struct of counts and number would be made anew at each call, and where a slot
// goes with a record, two would have to be said to have the same counts.
// Kept, low and high: the two ends of the points that a settle leaves; a struct of them would be made once, in
// `leave_settled`, and opened at each comparison.
// Kept, the mode and owner of l: a Lock is also what any words hold, so its type cannot hold them.
// Kept, the locks used: how many locks the words hold, which changes with them
#![tactic(auto)]

mod freed;

ghost use Rattle.std.specs.Prelude.{◌≡◌, true, not, ◌≤◌, ◌<◌};
ghost use Rattle.types.specs.Limits.{MAX_EDITS};
ghost use Rattle.meaning.specs.Lists.{keep};
ghost use Rattle.meaning.specs.Store.{rec_at, versions_used, locks_used};
ghost use Rattle.meaning.specs.Points.{is_owned, add_lock, touches, joined_row, join_read, leave_settled, drop_owner};
ghost use Rattle.meaning.specs.Ending.{insert};
ghost use Rattle.tables.specs.Layout.{MODES};
ghost use Rattle.tables.specs.Decode.{decode_at};
ghost use Rattle.tables.specs.Words.{Well};
ghost use Rattle.changes.specs.Becomes.{Becomes, Beside, version_of, on_versions, on_locks};
ghost use Rattle.changes.specs.Widened.{widened};

use chains::{Cursor, Falling, Linked, Rising};
pub use freed::free_rows;
use locks::touches;
use tables::{L_LOW, Part, Row, Tables, V_POINT};
use types::{Counts, Lock, READ, SETTLED, Version};
use updates::Pair;

// Locks.

// A lock more on record r, where its low point belongs.
// Kept: words and counts, Well c w, r < c.records, the mode and owner of l, the locks used; the head of this file
// says why.
pub fn add_lock(w: &mut [u64], c: Counts, r: usize, l: Lock)
    requires { Well c w.old × (r < c.records) × (l.mode < MODES) × (l.owner ≤ MAX_EDITS)
        × (locks_used (decode_at c w.old) < c.locks) }
    ensures { Beside c w.old w.new (on_locks (decode_at c w.old) r (add_lock l)) }
{
    let Some(i) = writes::insert::<Lock, Rising>(w, c, r, L_LOW, l.low) else {
        return;
    };
    writes::put_lock(w, c, i, r, l);
}

// The locks of owner k on record r go.
// Kept: `free_rows` is the generic function, and the line shows the test.
// Kept: words and counts, Well c w, r < c.records; the head of this file says why.
pub fn drop_owner(w: &mut [u64], c: Counts, r: usize, k: u64)
    requires { Well c w.old × (r < c.records) }
    ensures { Becomes c w.new (on_locks (decode_at c w.old) r (drop_owner k)) }
{
    free_rows(w, c, r, |l: Lock| l.owner == k);
}

// Settled locks.

// The row with the points of l and those between too, if l touches low..high.
// Kept: low and high; the head of this file says why.
fn taken_in(low: u64, high: u64, row: Lock, l: Lock) -> Lock
    ensures { result ≡ widened row (touches low high l) l }
{
    if touches(low, high, l) {
        Lock {
            low: row.low.min(l.low),
            high: row.high.max(l.high),
            ..row
        }
    } else {
        row
    }
}

// The settled reads of record r that overlap or adjoin low..high go. Replies the row that they and low..high are
// together.
// Kept: a loop as that of `free_rows`, which widens the row in the same turn, so that the chain is walked once. A
// `free_rows` that folds too would ask for a second callable and its law, for this one caller.
// Kept: words and counts, low and high, Well c w, r < c.records; the head of this file says why.
fn drop_touching(w: &mut [u64], c: Counts, r: usize, low: u64, high: u64) -> Lock
    requires { Well c w.old × (r < c.records) }
    ensures { Beside c w.old w.new
        (on_locks (decode_at c w.old) r (keep (λ l. not (touches low high l))))
        × (result ≡ joined_row low high (rec_at (decode_at c w.old) r).locks) }
{
    let t = Lock::table(c);
    let h = Lock::heads(c);
    let pair = Pair {
        of: Linked { table: t, heads: h },
        a: r + 1,
        b: 0,
    };
    let mut row = Lock {
        low,
        high,
        mode: READ,
        owner: SETTLED,
    };
    let mut place = 0;
    let tables = Tables {
        words: w,
        counts: c,
    };
    let mut walk = Cursor::new(t, tables.first::<Lock>(r + 1));
    while let Some(i) = walk.along(&Tables {
        words: w,
        counts: c,
    }
    .part::<Lock>())
    {
        let l = Lock::read(
            Tables {
                words: w,
                counts: c,
            },
            i,
        );
        row = taken_in(low, high, row, l);
        if touches(low, high, l) {
            updates::unlink(w, pair, place, i);
        } else {
            place = i;
        }
    }
    row
}

// A settled read on low..high of record r: one row with those that it overlaps or adjoins.
// Kept: words and counts, low and high, Well c w, the locks used, r < c.records; the head of this file says why.
fn leave_read(w: &mut [u64], c: Counts, r: usize, low: u64, high: u64)
    requires { Well c w.old × (r < c.records) × (locks_used (decode_at c w.old) < c.locks) }
    ensures { Beside c w.old w.new (on_locks (decode_at c w.old) r (join_read low high)) }
{
    let row = drop_touching(w, c, r, low, high);
    add_lock(w, c, r, row);
}

// A settled lock more on record r; a read is joined with those that it overlaps or adjoins.
// Kept: it is public and took any mode of a lock before; both callers pass a constant, and the rule joins reads alone.
// Kept: words and counts, low and high, Well c w, the locks used, r < c.records; the head of this file says why.
pub fn leave_settled(w: &mut [u64], c: Counts, r: usize, mode: u64, low: u64, high: u64)
    requires { Well c w.old × (r < c.records) × (mode < MODES) × (locks_used (decode_at c w.old) < c.locks) }
    ensures { Beside c w.old w.new
        (on_locks (decode_at c w.old) r (leave_settled true mode low high)) }
{
    if mode == READ {
        leave_read(w, c, r, low, high);
    } else {
        add_lock(
            w,
            c,
            r,
            Lock {
                low,
                high,
                mode,
                owner: SETTLED,
            },
        );
    }
}

// Versions.

// A version more on record r, where its point belongs.
// Kept: its place is found as that of a lock, by `writes::insert`; the words that are then stored are others
// Kept: words and counts, Well c w, r < c.records; the head of this file says why.
pub fn add_version(w: &mut [u64], c: Counts, r: usize, point: u64, value: u64)
    requires { Well c w.old × (r < c.records) × (1 ≤ point) × (versions_used (decode_at c w.old) < c.versions) }
    ensures { Beside c w.old w.new
        (on_versions (decode_at c w.old) r (insert (version_of point value))) }
{
    let Some(i) = writes::insert::<Version, Falling>(w, c, r, V_POINT, point - 1) else {
        return;
    };
    writes::put_version(w, c, i, point, value);
}
