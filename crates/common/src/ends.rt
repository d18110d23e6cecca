// The two ends of all points, each of which sees points by their distance from it, and what one access allows as an end
// sees it. Rests on the crates `types`, `meaning`, `tables` and `blocking` and on the modules `sets` and `allowed`.
// Kept, low and high: of a lock, any two words, or of what an access has read; each end reads one of the two.
ghost use Rattle.std.specs.Prelude.{◌≡◌, ℕ, suc, ◌-◌};
ghost use Rattle.types.specs.Limits.{LAST};
ghost use Rattle.common.specs.Commit.{nearer};
ghost use Rattle.common.specs.Ends.{Sees, low_near, low_far, high_near, high_far, low_sees, high_sees};

use crate::allowed::owns_write;
use crate::sets::Limit;
use types::{LAST, Lock};

// An end that a search starts from. Its distances are 1 to LAST.
pub trait End {
    // the point at a distance
    ghost point: { ℕ → ℕ };

    ghost near: { ℕ → ℕ → ℕ };

    ghost far: { ℕ → ℕ → ℕ };

    // The distances that low..high has: from `near` to `far`.
    // Kept: low and high; the head of this file says why.
    fn near(low: u64, high: u64) -> u64
        ensures { result ≡ near low high };

    // Kept: low and high; the head of this file says why.
    fn far(low: u64, high: u64) -> u64
        ensures { result ≡ far low high };

    ghost sees: { Sees point near far };
}

// The end below all points: a point lies at its own number.
pub struct Low;

impl End for Low {
    ghost point = { λ d. d };

    ghost near = { low_near };

    ghost far = { low_far };

    // Kept: low and high; the head of this file says why.
    fn near(low: u64, high: u64) -> u64 {
        low
    }

    // Kept: low and high; the head of this file says why.
    fn far(low: u64, high: u64) -> u64 {
        LAST.min(high)
    }

    ghost sees = { low_sees };
}

// The end above all points: a point lies as far below LAST + 1 as it is away.
pub struct High;

impl End for High {
    ghost point = { λ d. suc LAST - d };

    ghost near = { high_near };

    ghost far = { high_far };

    // Kept: low and high; the head of this file says why.
    fn near(low: u64, high: u64) -> u64 {
        (LAST + 1).saturating_sub(high)
    }

    // Kept: low and high; the head of this file says why.
    fn far(low: u64, high: u64) -> u64 {
        LAST.min((LAST + 1).saturating_sub(low))
    }

    ghost sees = { high_sees };
}

// The nearer of the best so far and a write lock of slot k, from distance d on.
fn nearer<E: End>(k: u64, d: u64, best: Option<u64>, l: Lock) -> Option<u64>
    ensures { result ≡ nearer E.near E.far k d best l }
{
    let start = d.max(E::near(l.low, l.high));
    if owns_write(k, l) && start <= E::far(l.low, l.high) {
        return Some(best.map_or(start, |b| b.min(start)));
    }
    best
}

impl<'a> Limit<'a> {
    ghost use Rattle.std.specs.Prelude.{◌≡◌, ◌≤◌};
    ghost use Rattle.types.specs.Limits.{LAST};
    ghost use Rattle.meaning.specs.Points.{writes};
    ghost use Rattle.blocking.specs.Search.{upto};
    ghost use Rattle.common.specs.Commit.{NextFrom, allows_at, own_locks, first_under, written_from, recs_at};

    // The least distance at or above d of a point under a write lock of the edit.
    // Kept: `fold` is the generic; what stays is a line with the step.
    fn first_write<E: End>(self, d: u64) -> Option<u64>
        ensures { result ≡ upto LAST (first_under E.near E.far (writes (own_locks self.entry)) d) }
    {
        let k = self.owner();
        self.named()
            .locks()
            .fold(None, |best, l| nearer::<E>(k, d, best, l))
    }

    // The least distance at or above d that it allows by what it has written.
    fn written_from<E: End>(self, d: u64) -> Option<u64>
        ensures { result ≡ written_from E.near E.far (own_locks self.entry) self.entry.access d }
    {
        if self.access.value.written().is_none() {
            return Some(d);
        }
        self.first_write::<E>(d)
    }

    // The least distance at or above d of a point that it allows.
    // Kept: 1 ≤ d, d ≤ LAST: of a distance, as of p in `nearing`; a struct of it would be opened at each comparison.
    // Inline: a `Limit` is many words to hand over, and this is asked of each access again and again.
    #[inline(always)]
    pub(crate) fn next_allowed<E: End>(self, d: u64) -> Option<u64>
        requires { (1 ≤ d) × (d ≤ LAST) }
        ensures { NextFrom
            (λ x. allows_at E.point (recs_at self.entry) self.entry.slot x self.entry.access) d result }
    {
        let from = self.access.from;
        if LAST < from {
            return None;
        }
        // what it has read starts nearer than this, so that no lock is looked at
        if E::far(from, LAST) < d {
            return None;
        }
        let last = self.read_last();
        let q = self.written_from::<E>(d.max(E::near(from, last)))?;
        (q <= E::far(from, last)).then_some(q)
    }
}
