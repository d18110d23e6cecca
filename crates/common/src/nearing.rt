// The search from an end for the nearest point of the common set: access by access, the nearest one that the first ones
// allow. It counts the distance from the end, so that it is one search for both ends. Rests on the crates `types`,
// `meaning`, `tables` and `blocking` and on the modules `sets` and `ends`.
// Kept, 1 ≤ p: of a distance, which the loops compare and hand on; a struct of it would be opened at each comparison.
// Kept, p ≤ LAST: the same.
use crate::LOWEST;
use crate::ends::{End, High, Low};
use crate::sets::CommonSet;
use types::{Access, LAST};

impl<'a> CommonSet<'a> {
    ghost use Rattle.std.specs.Prelude.{◌≡◌, ◌+◌, ◌≤◌, ◌<◌, Some};
    ghost use Rattle.types.specs.Limits.{LAST};
    ghost use Rattle.meaning.specs.Lists.{all};
    ghost use Rattle.meaning.specs.Points.{earliest, latest};
    ghost use Rattle.tables.specs.Views.{edit_in};
    ghost use Rattle.blocking.specs.Search.{upto};
    ghost use Rattle.common.specs.Commit.{NextFrom, LiftedTo, all_allow_at, first_in, recs_in, positive, Follows};

    // One pass over the first j accesses, from distance p on.
    // Kept: 1 ≤ p, p ≤ LAST; the head of this file says why.
    fn raise<E: End>(self, p: u64, j: usize) -> Option<u64>
        requires { (1 ≤ p) × (p ≤ LAST) }
        ensures { LiftedTo (all_allow_at E.point self.entry (first_in self.entry j)) p result }
    {
        let mut q = p;
        for a in self.slot.accesses().take(j) {
            q = self.limit(a).next_allowed::<E>(q)?;
        }
        Some(q)
    }

    // The least distance at or above p of a point that the first j accesses allow.
    // Kept: passes until none moves the point are no walk of a list, so a loop says it.
    // Kept: 1 ≤ p, p ≤ LAST; the head of this file says why.
    fn lift<E: End>(self, p: u64, j: usize) -> Option<u64>
        requires { (1 ≤ p) × (p ≤ LAST) }
        ensures { NextFrom (all_allow_at E.point self.entry (first_in self.entry j)) p result }
    {
        let mut q = p;
        loop {
            let x = self.raise::<E>(q, j)?;
            if x == q {
                return Some(q);
            }
            q = x;
        }
    }

    // From the least distance p of a point that the first j accesses allow to that of one more, a. Where it moves the
    // point and the first j allow it there, it is found: this one has been asked already.
    // Kept: 1 ≤ p; the head of this file says why.
    fn lift_next<E: End>(self, p: u64, j: usize, a: Access) -> Option<u64>
        requires { (1 ≤ p) × (j < self.slot.tables.counts.accesses) × (a.rec < self.slot.tables.counts.records)
            × Follows self j a × NextFrom (all_allow_at E.point self (first_in self j)) 1 (Some p) }
        ensures { NextFrom (all_allow_at E.point self.entry (first_in self.entry (j + 1))) 1 result }
    {
        let moved = self.limit(a).next_allowed::<E>(p)?;
        if moved == p {
            return Some(p);
        }
        let q = self.raise::<E>(moved, j)?;
        if q == moved {
            return Some(q);
        }
        self.lift::<E>(q, j + 1)
    }

    // The least distance of a point that all accesses allow.
    fn nearest<E: End>(self) -> Option<u64>
        ensures { NextFrom (all_allow_at E.point self.entry (edit_in self.entry.slot).accesses) 1 result }
    {
        let mut p = LOWEST;
        for (j, a) in self.slot.accesses().enumerate() {
            p = self.lift_next::<E>(p, j, a)?;
        }
        Some(p)
    }

    pub fn earliest(self) -> Option<u64>
        ensures { result ≡ upto LAST (earliest (recs_in self.entry) self.entry.slot.number (edit_in self.entry.slot)) }
    {
        self.nearest::<Low>()
    }

    pub fn latest(self) -> Option<u64>
        ensures { result ≡ positive (latest (recs_in self.entry) self.entry.slot.number (edit_in self.entry.slot)) }
    {
        let d = self.nearest::<High>()?;
        Some(LAST + 1 - d)
    }
}
