// Lock on sound words: equal to its definition in the crate `meaning`, and leaving sound words. For callers who prove
// the words sound (`requires sound_words`), as the calls of `calls`. It goes along one record's locks. Rests on the
// crates `types`, `meaning`, `locks`, `chains`, `tables`, `changes`, `lookups`, `blocking` and `calls`.
// Kept, words and counts: lent to be changed; over a struct of both each would promise, too, that they stay (Rattle's
// docs/BORROWS.md).
// Kept, Ready c w: `Well` and more, of words before a change; a ghost field would say it of the words after it.
// Kept, Ready of tables: as a field of `Tables` it would be asked for by the check of words, too, which makes `Tables`
// before it has found them sound; a struct beside it would hold the same two again.
// Kept, IsRow c.edits k: no words in it; a struct of counts and number would be made anew at each call, and where a
// slot goes with a record, two would have to be said to have the same counts.
// Kept, r < c.records: no words in it, for the same reason.
// Kept, sound words: what a caller proves once for many calls, of words that each call changes.
// Kept, 1 ≤ k: of one number, which `blocking::run` asks; a struct of it would be made for that one use.
// Kept, handle and record: the parameters of the call in document 01.
#![tactic(auto)]

ghost use Rattle.std.specs.Prelude.{◌≡◌, true, ◌≤◌, ◌<◌, Err};
ghost use Rattle.chains.specs.Walk.{IsRow};
ghost use Rattle.types.specs.Limits.{WRITE};
ghost use Rattle.meaning.specs.Locking.{lock_wanted, locking};
ghost use Rattle.types.specs.Replies.{of_lock};
ghost use Rattle.types.specs.declared.Extent.TheVariants.{Part};
ghost use Rattle.tables.specs.Decode.{decode_at};
ghost use Rattle.tables.specs.Views.{store_in};
ghost use Rattle.tables.specs.Words.{lent, sound_words};
ghost use Rattle.blocking.specs.Search.{run_grant};
ghost use Rattle.calls.specs.Contract.{Acts, Ready, Makes};
ghost use Rattle.calls.specs.Grants.{lock_grant};

use blocking::{Blocked, Points, Which};
use locks::Asker;
use tables::{Record, Tables};
use types::{Counts, Extent, Handle, Lock, Point, Refusal, Span, WRITE};

// P of Lock where the first point is blocked, with judgement b: the run from the first free point, if there is one.
// Kept: `..p` is refused for a struct with ghost fields.
// Kept: Ready of tables, 1 ≤ k; the head of this file says why.
fn later_grant(r: Record<'_>, k: u64, p: Points, b: Blocked) -> Result<(u64, u64), Blocked>
    requires { Ready r.tables.counts r.tables.words.now × (1 ≤ k)
        × (Err b ≡ run_grant Part (store_in r.tables) r.number WRITE k p.low p.high) }
    ensures { result ≡ lock_grant Part (store_in r.entry.tables) k r.entry.number p.low p.high }
{
    let a = Asker {
        mode: WRITE,
        slot: k,
    };
    let from = blocking::first_free(r, Which::Against(a), p).ok_or(b)?;
    let rest = Points {
        low: from,
        high: p.high,
    };
    blocking::run(r, a, rest, Extent::Part)
}

// Kept: all or a part is the caller's word; only a part goes on from the first free point.
// Kept: Ready of tables, 1 ≤ k; the head of this file says why.
// Kept: tried as `or_else`: of its closure nothing is inferred, and with its clause written out it is no plainer.
fn lock_grant(r: Record<'_>, k: u64, p: Points, extent: Extent) -> Result<(u64, u64), Blocked>
    requires { Ready r.tables.counts r.tables.words.now × (1 ≤ k) }
    ensures { result ≡ lock_grant extent (store_in r.entry.tables) k r.entry.number p.low p.high }
{
    let a = Asker {
        mode: WRITE,
        slot: k,
    };
    match blocking::run(r, a, p, extent) {
        Ok(points) => Ok(points),
        Err(b) => match extent {
            Extent::All => Err(b),
            Extent::Part => later_grant(r, k, p, b),
        },
    }
}

// Lock, once its first tests have passed: one lock row for the points granted.
// Kept: words and counts, IsRow c.edits k, Ready c w, r < c.records; the head of this file says why.
// Kept: tried as `map_err`: of its closure nothing is inferred, and with its clause written out it is no plainer.
fn lock_wanted(
    w: &mut [u64],
    c: Counts,
    k: usize,
    r: usize,
    p: Points,
    extent: Extent,
) -> Result<Span, Refusal>
    requires { Ready c w.old × IsRow c.edits k × (r < c.records) }
    ensures { Makes c (lock_wanted (decode_at c w.old) k r p.low p.high extent) w.old w.new
        (of_lock result) }
{
    let tables = Tables {
        words: w,
        counts: c,
    };
    let x = Record { tables, number: r };
    match lock_grant(x, k as u64, p, extent) {
        Err(b) => Err(calls::judge(tables, b)),
        Ok((from, end)) => {
            if !lookups::lock_room(tables) {
                return Err(Refusal::NoLockRow);
            }
            changes::add_lock(
                w,
                c,
                r,
                Lock {
                    low: from,
                    high: end,
                    mode: WRITE,
                    owner: k as u64,
                },
            );
            Ok(Span {
                low: Point::from(from),
                high: Point::from(end),
            })
        }
    }
}

// The call Lock.
// Kept: handle and record, sound words; the head of this file says why.
pub fn lock(
    w: &mut [u64],
    h: Handle,
    rec: u64,
    low: Point,
    high: Point,
    extent: Extent,
) -> Result<Span, Refusal>
    requires { sound_words (lent w.old) ≡ true }
    ensures { Acts (locking h.0 rec low.0 high.0 extent) (lent w.old) (lent w.new) (of_lock result) }
{
    let c = tables::counts_of(w);
    let tables = Tables {
        words: w,
        counts: c,
    };
    let k = calls::open_slot(tables, h)?;
    let r = calls::record(c, rec)?;
    let from = u64::from(low);
    let to = calls::point(from, high)?;
    let x = Record { tables, number: r };
    calls::above_floor(x, from)?;
    let p = Points {
        low: from,
        high: to,
    };
    lock_wanted(w, c, k, r, p, extent)
}
