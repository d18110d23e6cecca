// The points that every access of an edit allows, asked of one point, and the last one that an access allows by what it
// has read. Rests on the crates `types`, `meaning`, `locks`, `tables` and `blocking` and on the module `sets`.
// Kept, p ≤ LAST: `contains` tests it once; a struct of a tested point would be opened at each comparison.
ghost use Rattle.std.specs.Prelude.{◌≡◌, ◌&&◌};
ghost use Rattle.meaning.specs.Points.{covered, own, writes, covers};
ghost use Rattle.tables.specs.Views.{rec_in};
ghost use Rattle.blocking.specs.Search.{owns_write};

use crate::LOWEST;
use crate::sets::{CommonSet, Limit};
use blocking::{Points, Which, first_free};
use tables::Record;
use types::{LAST, Lock, WRITE};

pub fn owns_write(k: u64, l: Lock) -> bool
    ensures { result ≡ owns_write k l }
{
    l.owner == k && l.mode == WRITE
}

fn writes_at(k: u64, p: u64, l: Lock) -> bool
    ensures { result ≡ (owns_write k l && covers p l) }
{
    owns_write(k, l) && locks::covers(p, l)
}

pub fn write_on(r: Record<'_>, k: u64, p: u64) -> bool
    ensures { result ≡ covered (writes (own k (rec_in r.entry).locks)) p }
{
    r.locks().any(|l| writes_at(k, p, l))
}

impl<'a> Limit<'a> {
    ghost use Rattle.std.specs.Prelude.{◌≡◌, ◌&&◌, suc, ◌≤◌};
    ghost use Rattle.types.specs.Limits.{LAST};
    ghost use Rattle.meaning.specs.Points.{allows, allows_write, allows_read};
    ghost use Rattle.common.specs.Commit.{own_locks, read_end, recs_at};

    // The last point that it allows by what it has read: the one before the first that is under no own lock.
    // Kept: `from` is a word of an access, which may hold any number; each caller has compared it with a point.
    pub(crate) fn read_last(self) -> u64
        requires { self.access.from ≤ LAST }
        ensures { suc result ≡ read_end (own_locks self.entry) self.entry.access }
    {
        if self.access.from == 0 {
            return LAST;
        }
        let own = Which::Own(self.owner());
        let p = Points {
            low: self.access.from,
            high: LAST,
        };
        first_free(self.named(), own, p).unwrap_or(LAST + 1) - 1
    }

    fn allows_write(self, p: u64) -> bool
        ensures { result ≡ allows_write (own_locks self.entry) self.entry.access p }
    {
        self.access.value.written().is_none() || write_on(self.named(), self.owner(), p)
    }

    // Kept: p ≤ LAST; the head of this file says why.
    fn allows_read(self, p: u64) -> bool
        requires { p ≤ LAST }
        ensures { result ≡ allows_read (own_locks self.entry) self.entry.access p }
    {
        self.access.from <= p && p <= self.read_last()
    }

    // Kept: p ≤ LAST; the head of this file says why.
    #[tactic(auto, unfolding(meaning::specs::Points::allows))]
    pub fn allows(self, p: u64) -> bool
        requires { p ≤ LAST }
        ensures { result ≡ allows (recs_at self.entry) self.entry.slot p self.entry.access }
    {
        self.allows_write(p) && self.allows_read(p)
    }
}

impl<'a> CommonSet<'a> {
    ghost use Rattle.std.specs.Prelude.{◌≡◌, ◌≤◌, ◌<◌};
    ghost use Rattle.types.specs.Limits.{LAST};
    ghost use Rattle.meaning.specs.Lists.{all};
    ghost use Rattle.meaning.specs.Points.{allows, in_common};
    ghost use Rattle.tables.specs.Views.{edit_in};
    ghost use Rattle.common.specs.Commit.{recs_in};

    // Kept: `all` is the generic; what stays is a line with the test.
    // Kept: p ≤ LAST; the head of this file says why.
    fn all_allow(self, p: u64) -> bool
        requires { p ≤ LAST }
        ensures { result
            ≡ all (allows (recs_in self.entry) self.entry.slot.number p) (edit_in self.entry.slot).accesses }
    {
        self.slot.accesses().all(|a| self.limit(a).allows(p))
    }

    #[tactic(auto, unfolding(meaning::specs::Points::in_common))]
    pub fn contains(self, p: u64) -> bool
        ensures { result ≡ in_common (recs_in self.entry) self.entry.slot.number (edit_in self.entry.slot) p }
    {
        LOWEST <= p && p <= LAST && self.all_allow(p)
    }
}
