// Points of a record under its locks: the first free one, the first blocked one with its judgement, and the run of
// points that one may have. Read-only, each equal to a function of the decoded store. Each is one walk of the record's
// locks that stops as soon as no later one can matter. Rests on the crates `types`, `meaning`, `locks`, `tables` and
// `lookups`. A caller proves that the record's locks rise (`Rising`), so the functions have `requires`; those that look
// for a blocked point also ask that they are spans (`Proper`).
// Kept, Rising r: a fact of one record, from `Ready`; a struct of both would be made at each call to say one word less.
// Kept, Proper: as `Rising r`; `first_free` does without it.
// Kept, 1 ≤ a.slot: `first_free` and the functions of an `Asker` take any slot; a field with the bound would ask more.
// Kept, record, asker and points: each takes those that it reads; a struct of the three would be made at each call, to
// be opened at each step of a walk, which reads one or two of them.
#![tactic(auto)]

ghost use Rattle.std.specs.Prelude.{◌≡◌, ◌≤◌, ◌||◌, eqb};
ghost use Rattle.types.specs.Limits.{LAST, SETTLED};
ghost use Rattle.meaning.specs.Lists.{any};
ghost use Rattle.meaning.specs.Points.{meets, first_free};
ghost use Rattle.meaning.specs.Pointwise.{Proper};
ghost use Rattle.meaning.specs.Store.{rec_at};
ghost use Rattle.tables.specs.Views.{store_in, rec_in};
ghost use Rattle.blocking.specs.Search.{Rising, counted, further, stops, upto};
ghost use Rattle.blocking.specs.Search.{joined, nearer, beyond, nearest, first_judged, run_grant};

use locks::Asker;
use tables::Record;
use types::{Extent, Lock, SETTLED, SLOTS};

// The points low..high: there is one, and none is past the last.
#[derive(Clone, Copy)]
pub struct Points {
    pub low: u64,
    pub high: u64,
    ghost order: { low ≤ high },
    ghost last: { high ≤ LAST },
}

// Which of a record's locks a search is about: a slot's own, or those of others that are in the way of an asker.
#[derive(Clone, Copy)]
pub enum Which {
    Own(u64),
    Against(Asker),
}

// Why a point is blocked: it is frozen, or held by the lowest slot that has a lock there.
#[derive(Clone, Copy)]
pub enum Judgement {
    Frozen,
    Held(u64),
}

// A blocked point with its judgement.
#[derive(Clone, Copy)]
pub struct Blocked {
    pub point: u64,
    pub judgement: Judgement,
}

// The first point of a lock among those searched, with the lock's owner, 0 for settled and 64 for any that is no slot.
// The nearer one is less; of those as near, the one of the lower owner.
// Kept: the owner is a number, since the lowest is sought: settled comes before every slot, and what is no slot last.
#[derive(Clone, Copy, PartialEq, Eq, PartialOrd, Ord)]
struct Start {
    point: u64,
    owner: u64,
}

impl Which {
    ghost use Rattle.std.specs.Prelude.{◌≡◌};
    ghost use Rattle.blocking.specs.Search.{counts};

    #[tactic(auto, unfolding(crate::specs::Search::counts))]
    fn counts(self, l: Lock) -> bool
        ensures { result ≡ counts self l }
    {
        match self {
            Which::Own(k) => l.owner == k,
            Which::Against(a) => a.blocked_by(l),
        }
    }
}

// One lock of the walk for a free point: where it counts and the end lies in it, the end goes to just after it.
// Kept: record, asker and points; the head of this file says why.
#[tactic(auto, unfolding(crate::specs::Search::further))]
fn further(which: Which, p: Points, end: u64, l: Lock) -> u64
    ensures { result ≡ further which p.high end l }
{
    if which.counts(l) && end <= l.high {
        return p.high.min(l.high) + 1;
    }
    end
}

fn stops(p: Points, end: u64, l: Lock) -> bool
    ensures { result ≡ stops p.high end l }
{
    p.high < end || end < l.low
}

// The least of the points under none of them. One walk: all points before `end` are under them. The locks rise, so
// where one starts beyond the end nothing covers the end, counted or not: it is free.
// Kept: the order of the locks only lets the walk stop early, for nothing is looked up by a lock's low point.
// Kept: Rising r, record, asker and points; the head of this file says why.
// Inline, since each of its callers asks one kind of locks, for which it is a shorter loop.
#[inline(always)]
pub fn first_free(r: Record<'_>, which: Which, p: Points) -> Option<u64>
    requires { Rising r }
    ensures { result ≡ upto p.high (first_free (counted which (rec_in r.entry).locks) p.low p.high) }
{
    let mut end = p.low;
    for l in r.locks() {
        if stops(p, end, l) {
            break;
        }
        end = further(which, p, end, l);
    }
    (end <= p.high).then_some(end)
}

fn meets(p: Points, l: Lock) -> bool
    ensures { result ≡ meets p.low p.high l }
{
    l.low <= p.high && p.low <= l.high
}

// The less of the best so far and the next.
fn joined(best: Option<Start>, next: Start) -> Start
    ensures { result ≡ joined best next }
{
    best.map_or(next, |b| b.min(next))
}

// Kept: record, asker and points; the head of this file says why.
#[tactic(auto, unfolding(crate::specs::Search::nearer))]
fn nearer(a: Asker, p: Points, best: Option<Start>, l: Lock) -> Option<Start>
    ensures { result ≡ nearer a.mode a.slot p.low p.high best l }
{
    if a.blocked_by(l) && meets(p, l) {
        let next = Start {
            point: p.low.max(l.low),
            owner: SLOTS.min(l.owner),
        };
        return Some(joined(best, next));
    }
    best
}

// The lock starts beyond the best so far, or beyond the points where there is none.
// Kept: record, asker and points; the head of this file says why.
fn beyond(p: Points, best: Option<Start>, l: Lock) -> bool
    ensures { result ≡ beyond p.high best l }
{
    best.map_or(p.high, |b| b.point) < l.low
}

// The first point under a lock that blocks the asker, with the lowest owner of those that start there. The locks rise,
// so from one that starts beyond the point found on, none is nearer or as near; and where none is found, from one that
// starts beyond the points on, none meets them.
// Kept: the order of the locks only lets the walk stop early, for nothing is looked up by a lock's low point.
// Kept: record, asker and points; the head of this file says why.
fn nearest(r: Record<'_>, a: Asker, p: Points) -> Option<Start>
    ensures { result ≡ nearest a.mode a.slot p.low p.high None (rec_in r.entry).locks }
{
    let mut best: Option<Start> = None;
    for l in r.locks() {
        if beyond(p, best, l) {
            return best;
        }
        best = nearer(a, p, best, l);
    }
    best
}

// A settled lock starts at the point found, or a version stands on it.
fn is_frozen(r: Record<'_>, b: Start) -> bool
    ensures { result ≡ (eqb b.owner SETTLED || any (λ v. eqb v.point b.point) (rec_in r.entry).versions) }
{
    b.owner == SETTLED || lookups::version_stands(r, b.point)
}

// The least of the points that is blocked, with its judgement. One walk of the locks: a settled lock has the lowest
// owner, so it is the one that is named. Versions are looked at only where there is none.
// Kept: the point goes over from one struct to the other, its owner becomes a judgement: one field alone is copied.
// Kept: Rising r, Proper, 1 ≤ a.slot, record, asker and points; the head of this file says why.
pub fn first_blocked(r: Record<'_>, a: Asker, p: Points) -> Option<Blocked>
    requires { (1 ≤ a.slot) × Proper (rec_at (store_in r.tables) r.number) × Rising r }
    ensures { result ≡ first_judged (store_in r.entry.tables) r.entry.number a.mode a.slot
        p.low p.high }
{
    let b = nearest(r, a, p)?;
    let judgement = if is_frozen(r, b) {
        Judgement::Frozen
    } else {
        Judgement::Held(b.owner)
    };
    Some(Blocked {
        point: b.point,
        judgement,
    })
}

// The run of points from the first one on that the asker may have: all of them or none, or a part, those before the
// first that is blocked; else why the first that is blocked cannot be had.
// Kept: the caller's word, two arms; Lock alone goes on after a refused part (locking::lock_grant).
// Kept: Rising r, Proper, 1 ≤ a.slot, record, asker and points; the head of this file says why.
pub fn run(r: Record<'_>, a: Asker, p: Points, extent: Extent) -> Result<(u64, u64), Blocked>
    requires { (1 ≤ a.slot) × Proper (rec_at (store_in r.tables) r.number) × Rising r }
    ensures { result ≡ run_grant extent (store_in r.entry.tables) r.entry.number a.mode a.slot
        p.low p.high }
{
    match first_blocked(r, a, p) {
        None => Ok((p.low, p.high)),
        Some(b) => match extent {
            Extent::All => Err(b),
            Extent::Part => {
                if b.point <= p.low {
                    return Err(b);
                }
                Ok((p.low, b.point - 1))
            }
        },
    }
}
