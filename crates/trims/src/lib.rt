// What Purge changes of a record: its floor, its settled locks and its versions. Each leaves the words well formed and
// equals a function of the decoded store; the callers prove that the words are well formed (`Well`) and that records
// and points are in range. Rests on the crates `types`, `meaning`, `chains`, `updates`, `tables`, `writes` and
// `changes`.
// Kept, words and counts: a struct that holds lent `&mut` words would have each contract say that it keeps them
// Kept, Well c w: a fact of the words, which a struct over `&mut` words cannot hold while they change
// Kept, r < c.records: no words in it; a struct of counts and number would be made anew at each call, and where a slot
// goes with a record, two would have to be said to have the same counts.
// Kept, v ≤ LAST: of a point that a purge hands down; a struct of a bounded number would be opened at each comparison.
#![tactic(auto)]

ghost use Rattle.std.specs.Prelude.{◌≡◌, ◌≤◌, ◌<◌, leb};
ghost use Rattle.types.specs.Limits.{LAST};
ghost use Rattle.meaning.specs.Store.{with_rec, rec_at};
ghost use Rattle.meaning.specs.Points.{trimmed, trim_to};
ghost use Rattle.meaning.specs.Lists.{keep};
ghost use Rattle.tables.specs.Decode.{decode_at};
ghost use Rattle.tables.specs.Words.{Well};
ghost use Rattle.changes.specs.Becomes.{Becomes, with_floor};
ghost use Rattle.trims.specs.Frees.{FreesVersions, FreesLocks};

use chains::{Cursor, Linked, head_of};
use changes::free_rows;
use tables::{L_LOW, Part, R_FLOOR, Records, Row, Tables};
use types::{Counts, Lock, SETTLED, Version};
use updates::Pair;
use writes::set_word;

// The record's floor.
// Kept: words and counts, Well c w, r < c.records; the head of this file says why.
pub fn set_floor(w: &mut [u64], c: Counts, r: usize, v: u64)
    requires { Well c w.old × (r < c.records) }
    ensures { Becomes c w.new
        (with_rec (decode_at c w.old) r (with_floor (rec_at (decode_at c w.old) r) v)) }
{
    set_word::<Records>(w, c, r + 1, R_FLOOR, v);
}

// Settled locks lose their points up to v, and rows left empty go.

// The low end that a lock is left with.
// Kept: v ≤ LAST; the head of this file says why.
fn raised_low(l: Lock, v: u64) -> u64
    requires { v ≤ LAST }
    ensures { result ≡ (trimmed v l).low }
{
    if l.owner == SETTLED {
        l.low.max(v + 1)
    } else {
        l.low
    }
}

// Settled locks of record r lose their points up to v; replies how many rows were freed. Each row that is met gets its
// low end, also one that then goes, since the words of a free row may be anything.
// Kept: no `free_rows`, whose test only reads a row; this one walk also stores the row's low end.
// Kept: words and counts, Well c w, r < c.records, v ≤ LAST; the head of this file says why.
pub fn trim_locks(w: &mut [u64], c: Counts, r: usize, v: u64) -> u64
    requires { Well c w.old × (r < c.records) × (v ≤ LAST) }
    ensures { FreesLocks c w.old w.new r (trim_to v) result }
{
    let t = Lock::table(c);
    let h = Lock::heads(c);
    let pair = Pair {
        of: Linked { table: t, heads: h },
        a: r + 1,
        b: 0,
    };
    let mut freed = 0;
    let mut place = 0;
    let mut walk = Cursor::new(t, head_of(w, h, r + 1));
    while let Some(i) = walk.along(&Tables {
        words: w,
        counts: c,
    }
    .part::<Lock>())
    {
        let l = Lock::read(
            Tables {
                words: w,
                counts: c,
            },
            i,
        );
        set_word::<Lock>(w, c, i, L_LOW, raised_low(l, v));
        if l.owner == SETTLED && l.high <= v {
            updates::unlink(w, pair, place, i);
            freed += 1;
        } else {
            place = i;
        }
    }
    freed
}

// Versions.

// The versions of record r below v go; replies how many.
// Kept: words and counts, Well c w, r < c.records; the head of this file says why.
pub fn cut_versions(w: &mut [u64], c: Counts, r: usize, v: u64) -> u64
    requires { Well c w.old × (r < c.records) }
    ensures { FreesVersions c w.old w.new r (keep (λ x. leb v x.point)) result }
{
    free_rows(w, c, r, |x: Version| x.point < v)
}
