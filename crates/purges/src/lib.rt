// Purge on sound words: equal to its definition in the crate `meaning`, and leaving sound words. For callers who prove
// the words sound (`requires sound_words`), as the calls of `calls` and `endings`. It goes along one record's versions
// and locks. Rests on the crates `types`, `meaning`, `tables`, `changes`, `trims`, `lookups`, `calls` and `endings`.
// Kept, words and counts: lent to be changed; over a struct of both each would promise, too, that they stay (Rattle's
// docs/BORROWS.md).
// Kept, Well c w: of words before a change; a ghost field would say it of the words after it, which is each promise.
// Kept, r < c.records: no words in it; a struct of counts and number would be made anew at each call.
// Kept, sound words: what a caller proves once for many calls, of words that each call changes.
// Kept, v ≤ LAST: of the word of a version's point; a `Point` may lie above LAST, too, and a struct of a bounded number
// would be opened at each comparison.
#![tactic(auto)]

ghost use Rattle.std.specs.Prelude.{◌≡◌, true, not, ◌&&◌, ◌≤◌, ◌<◌, leb};
ghost use Rattle.types.specs.Limits.{LAST, SETTLED};
ghost use Rattle.types.specs.Replies.{of_purge};
ghost use Rattle.meaning.specs.Points.{is_owned};
ghost use Rattle.meaning.specs.Records.{purge_to, purging};
ghost use Rattle.tables.specs.Decode.{decode_at};
ghost use Rattle.tables.specs.Views.{rec_in};
ghost use Rattle.tables.specs.Words.{lent, sound_words, Well};
ghost use Rattle.calls.specs.Contract.{Acts, Makes};
ghost use Rattle.endings.specs.Parts.{locked_below, purge_all};

use tables::{Record, Tables};
use types::{Counts, Freed, Lock, Point, Refusal, SETTLED};

// A lock of an unsettled edit at or below v.
fn held_below(l: Lock, v: u64) -> bool
    ensures { result ≡ (not (is_owned SETTLED l) && leb l.low v) }
{
    l.owner != SETTLED && l.low <= v
}

// Kept: the method of the iterator is the generic one; the line shows the test.
fn locked_below(r: Record<'_>, v: u64) -> bool
    ensures { result ≡ locked_below v (rec_in r.entry).locks }
{
    r.locks().any(|l| held_below(l, v))
}

// Versions are cut, locks trimmed and the floor set, with no lock in the way.
// Kept: words and counts, Well c w, r < c.records, v ≤ LAST; the head of this file says why.
fn purge_record(w: &mut [u64], c: Counts, r: usize, v: u64) -> Result<Freed, Refusal>
    requires { Well c w.old × (r < c.records) × (v ≤ LAST) }
    ensures { Makes c (purge_all (decode_at c w.old) r v) w.old w.new (of_purge result) }
{
    let versions = trims::cut_versions(w, c, r, v);
    let locks = trims::trim_locks(w, c, r, v);
    trims::set_floor(w, c, r, v);
    Ok(Freed { versions, locks })
}

// Kept: words and counts, Well c w, r < c.records, v ≤ LAST; the head of this file says why.
fn purge_to(w: &mut [u64], c: Counts, r: usize, v: u64) -> Result<Freed, Refusal>
    requires { Well c w.old × (r < c.records) × (v ≤ LAST) }
    ensures { Makes c (purge_to (decode_at c w.old) r v) w.old w.new (of_purge result) }
{
    let tables = Tables {
        words: w,
        counts: c,
    };
    let x = Record { tables, number: r };
    if v <= x.floor() {
        return Ok(Freed {
            versions: 0,
            locks: 0,
        });
    }
    if locked_below(x, v) {
        return Err(Refusal::LockedBelow);
    }
    purge_record(w, c, r, v)
}

// Kept: sound words; the head of this file says why.
pub fn purge(w: &mut [u64], rec: u64, b: Point) -> Result<Freed, Refusal>
    requires { sound_words (lent w.old) ≡ true }
    ensures { Acts (purging rec b.0) (lent w.old) (lent w.new) (of_purge result) }
{
    let c = tables::counts_of(w);
    let r = calls::record(c, rec)?;
    let p = calls::point(0, b)?;
    let tables = Tables {
        words: w,
        counts: c,
    };
    let v = lookups::newest_at(Record { tables, number: r }, p);
    purge_to(w, c, r, v.point)
}
