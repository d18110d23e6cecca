// What one lock is to a point, to who asks for points and to a span of points, by the definitions of `meaning`. Rests
// on the crates `types` and `meaning`; it is a crate of its own so that its wrong programs are tried quickly.
#![tactic(auto)]

ghost use Rattle.std.specs.Prelude.{◌≡◌, suc, leb};
ghost use Rattle.meaning.specs.Points.{covers, is_settled_read, touches};
ghost use Rattle.meaning.specs.Sound.{starts_read};

use types::{Lock, READ, SETTLED, WRITE};

// Who asks for points: a slot, and the mode that it wants them in.
#[derive(Clone, Copy)]
pub struct Asker {
    // Kept: any number may be asked for, as it always could; an enum of two modes would ask more of callers.
    pub mode: u64,
    pub slot: u64,
}

impl Asker {
    ghost use Rattle.std.specs.Prelude.{◌≡◌};
    ghost use Rattle.meaning.specs.Points.{conflicts, blocks};

    // A lock of another owner would stand in the way of this mode.
    #[tactic(auto, unfolding(meaning::specs::Points::conflicts))]
    pub fn conflicts(self, l: Lock) -> bool
        ensures { result ≡ conflicts self.mode l }
    {
        self.mode == WRITE || l.mode == WRITE
    }

    // The lock stands in the way: another owner has it, and it conflicts.
    #[tactic(auto, unfolding(meaning::specs::Points::blocks))]
    pub fn blocked_by(self, l: Lock) -> bool
        ensures { result ≡ blocks self.mode self.slot l }
    {
        l.owner != self.slot && self.conflicts(l)
    }
}

// The point lies in the lock.
pub fn covers(p: u64, l: Lock) -> bool
    ensures { result ≡ covers p l }
{
    l.low <= p && p <= l.high
}

// A read lock of slot k that starts at from.
#[tactic(auto, unfolding(meaning::specs::Sound::starts_read))]
pub fn starts_read(k: u64, from: u64, l: Lock) -> bool
    ensures { result ≡ starts_read k from l }
{
    l.owner == k && l.mode != WRITE && l.low == from
}

// A settled read lock.
pub fn is_settled_read(l: Lock) -> bool
    ensures { result ≡ is_settled_read l }
{
    l.owner == SETTLED && l.mode == READ
}

// Whether no point lies between `end` and `start`: nothing is added, since either may be any word.
fn adjoins(end: u64, start: u64) -> bool
    ensures { result ≡ leb start (suc end) }
{
    start <= end || start - end <= 1
}

// A settled read lock that overlaps or adjoins low..high.
// Kept: two ends of the points that a settle leaves; a struct of them would be made for this test and opened in it.
pub fn touches(low: u64, high: u64, l: Lock) -> bool
    ensures { result ≡ touches low high l }
{
    is_settled_read(l) && adjoins(high, l.low) && adjoins(l.high, low)
}
