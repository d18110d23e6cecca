// The clauses that compare the locks of a record with one another, in one pass along them: their low ends rise, settled
// read locks are joined, and no write lock shares a point with a lock of another owner. Of the locks behind it a pass
// keeps a few numbers (`Swept`), so that no lock is compared with every other one; that this finds out exactly the
// clauses, for any locks, is proofs/Agreeing. Rests on the crates `types`, `meaning` and `locks`.
#![tactic(auto)]

ghost use Rattle.std.specs.Prelude.{◌≡◌};
ghost use Rattle.sweeps.specs.Sweep.{later, below, others, reached, no_swept, joined_now, agrees_now, swept_now};
ghost use Rattle.sweeps.specs.Sweep.{passed_writes, passed_joined, passed};

use locks::is_settled_read;
use types::{Lock, WRITE};

// Where a lock ends, and whose it is.
// Kept: the owner is the number in the lock's words, which may be any; it is only compared with another one.
#[derive(Clone, Copy)]
pub struct End {
    pub high: u64,
    pub owner: u64,
}

// How far locks reach: the last end among them, and the highest end of the other owners' locks.
#[derive(Clone, Copy)]
pub struct Reach {
    pub last: Option<End>,
    pub other: Option<u64>,
}

// What a pass keeps of the locks behind it: the low end of the last one, the highest end of the settled read locks, and
// how far all of them and the write locks among them reach.
#[derive(Clone, Copy)]
pub struct Swept {
    pub low: u64,
    pub joined: Option<u64>,
    pub all: Reach,
    pub writes: Reach,
}

// The higher of an end, if there is one, and another.
fn later(end: Option<u64>, high: u64) -> u64
    ensures { result ≡ later end high }
{
    end.map_or(high, |x| x.max(high))
}

// An end, if there is one, lies below a point.
fn below(end: Option<u64>, p: u64) -> bool
    ensures { result ≡ below end p }
{
    end.is_none_or(|x| x < p)
}

// How far the locks of owners other than k reach.
#[tactic(auto, unfolding(crate::specs::Sweep::others))]
fn others(s: Reach, k: u64) -> Option<u64>
    ensures { result ≡ others s k }
{
    match s.last {
        Some(end) if end.owner != k => Some(end.high),
        _ => s.other,
    }
}

// With one lock more, of owner k and up to high.
#[tactic(auto, unfolding(crate::specs::Sweep::reached))]
fn reached(s: Reach, k: u64, high: u64) -> Reach
    ensures { result ≡ reached s k high }
{
    let end = End { high, owner: k };
    let Some(last) = s.last else {
        return Reach {
            last: Some(end),
            ..s
        };
    };
    if last.owner == k {
        return Reach {
            last: Some(End {
                high: last.high.max(high),
                ..last
            }),
            ..s
        };
    }
    if last.high < high {
        return Reach {
            last: Some(end),
            other: Some(last.high),
        };
    }
    Reach {
        other: Some(later(s.other, high)),
        ..s
    }
}

// A lock after those that were passed.

#[tactic(auto, unfolding(crate::specs::Sweep::joined_now))]
fn joined_now(s: Swept, l: Lock) -> bool
    ensures { result ≡ joined_now s l }
{
    !is_settled_read(l) || (0 < l.low && below(s.joined, l.low - 1))
}

// Kept: the mode picks which of two values is looked at, and no step differs
#[tactic(auto, unfolding(crate::specs::Sweep::agrees_now))]
fn agrees_now(s: Swept, l: Lock) -> bool
    ensures { result ≡ agrees_now s l }
{
    let behind = if l.mode == WRITE { s.all } else { s.writes };
    below(others(behind, l.owner), l.low)
}

pub fn swept_now(s: Swept, l: Lock) -> bool
    ensures { result ≡ swept_now s l }
{
    s.low <= l.low && joined_now(s, l) && agrees_now(s, l)
}

// What a pass keeps: before the first lock, and after one lock more.

pub fn none_passed() -> Swept
    ensures { result ≡ no_swept }
{
    let none = Reach {
        last: None,
        other: None,
    };
    Swept {
        low: 0,
        joined: None,
        all: none,
        writes: none,
    }
}

fn passed_writes(s: Reach, l: Lock) -> Reach
    ensures { result ≡ passed_writes s l }
{
    if l.mode == WRITE {
        reached(s, l.owner, l.high)
    } else {
        s
    }
}

fn passed_joined(end: Option<u64>, l: Lock) -> Option<u64>
    ensures { result ≡ passed_joined end l }
{
    if is_settled_read(l) {
        Some(later(end, l.high))
    } else {
        end
    }
}

// Kept: `low` is a lock's field here and not one of a `Swept`, so `..` cannot take it
#[tactic(auto, unfolding(crate::specs::Sweep::passed))]
pub fn passed(s: Swept, l: Lock) -> Swept
    ensures { result ≡ passed s l }
{
    Swept {
        low: l.low,
        joined: passed_joined(s.joined, l),
        all: reached(s.all, l.owner, l.high),
        writes: passed_writes(s.writes, l),
    }
}
