// The exact check that every row is on exactly one chain, of three tables. One budget of rows serves all chains of a
// table, and a row met for the second time ends the check, so that on any words it takes at most one turn of a loop for
// each row and one for each chain. The three free chains, the long ones of tables with room, are walked in one loop:
// the next step of a walk waits for a link word from memory, and three walks wait for theirs at the same time. Rests on
// lib.rt and placed.rt.
// Kept, CanCheck: of words and counts that a caller has; a Check holds of it what its steps use, `Lies` and `few`
ghost use Rattle.std.specs.Prelude.{◌≡◌, ◌<◌, ◌&&◌};
ghost use Rattle.chains.specs.Partition.{MARKS, partition, CanCheck, MarkedChain, Begun};

use crate::{Cursor, Heads, Linked, Placed, head_of};

// A mark for each row number from 0 on, so that a row is its own index: a table that is checked has fewer rows.
pub const MARKS: usize = 4096;

// A table that is checked: the walk along its free chain, and which rows were met.
// Kept: marks stand beside the rows, whose words are lent and which a check does not change; memory is fixed
#[derive(Drop)]
struct Check<'a> {
    of: Placed<'a>,
    walk: Cursor,
    marks: [bool; MARKS],
    ghost few: { of.table.count < MARKS },
}

impl<'a> Check<'a> {
    ghost use Rattle.std.specs.Prelude.{◌≡◌};
    ghost use Rattle.chains.specs.Checked.{Starts, Advances, Steps};

    // No row is marked, and the walk stands before its first step.
    // Kept: rows linked by their numbers in the lent words are the form of document 01, and there is no heap
    // Kept: CanCheck; the head of this file says why.
    fn new(w: &'a [u64], c: Linked) -> Check<'a>
        requires { CanCheck c.table c.heads w.now }
        ensures { Starts c w.now result }
    {
        let table = c.table;
        Check {
            of: Placed { words: w, table },
            walk: Cursor::new(table, head_of(w, c.heads, 0)),
            marks: [false; MARKS],
        }
    }

    // One step of the walk; replies whether one was made. Where none can be, at the end of the chain, at a row that is
    // marked already or with no room left, the walk stays; `mark_chain` from there finds out which it is.
    fn step(&mut self) -> bool
        ensures { Steps self.old self.new result }
    {
        let mut next = self.walk;
        let Some(i) = next.along(&self.of) else {
            return false;
        };
        if self.marks[i] {
            return false;
        }
        self.marks[i] = true;
        self.walk = next;
        true
    }

    // Marks the rows that a walk has still to meet, up to the chain's end. Replies what it leaves of the walk's room;
    // none if a row is marked already or the chain does not end within the room.
    // Kept: rows linked by their numbers in the lent words are the form of document 01, and there is no heap
    fn mark_chain(&mut self, mut walk: Cursor) -> Option<usize>
        ensures { MarkedChain self.old.of.table self.old.of.words.now self.old.marks self.new.marks walk.row walk.left
            result
            × (self.new.of ≡ self.old.of) }
    {
        let of = self.of;
        while let Some(row) = walk.along(&of) {
            if self.marks[row] {
                return None;
            }
            self.marks[row] = true;
        }
        if walk.row != 0 {
            return None;
        }
        Some(walk.left)
    }

    // Marks the free chain from the walk on, as far as it is not marked yet, and then one owner's chain after the
    // other; every row was met if the whole room is used.
    // Kept: rows linked by their numbers in the lent words are the form of document 01, and there is no heap
    // Kept: CanCheck; the head of this file says why.
    fn parted(&mut self, h: Heads) -> bool
        requires { CanCheck self.old.of.table h self.old.of.words.now
            × Begun self.old.of.table h self.old.of.words.now self.old.marks self.old.walk }
        ensures { result ≡ partition self.old.of.table h self.old.of.words.now }
    {
        let of = self.of;
        let walk = self.walk;
        let Some(free) = self.mark_chain(walk) else {
            return false;
        };
        let mut room = free;
        for k in 1..=h.owners {
            let chain = Cursor {
                row: head_of(of.words, h, k),
                left: room,
            };
            let Some(rest) = self.mark_chain(chain) else {
                return false;
            };
            room = rest;
        }
        room == 0
    }

    // Steps of three walks, one of each in turn, until a turn in which none went on. Where they stop is not promised:
    // `parted` judges the chain from there, and any order of steps would do.
    fn step_together(a: &mut Check, b: &mut Check, c: &mut Check)
        ensures { Advances a.old a.new × Advances b.old b.new × Advances c.old c.new }
    {
        // Kept: nothing is counted; the loop goes on until a turn of three steps moves no walk
        while a.step() | b.step() | c.step() {}
    }
}

// Whether in each of the three tables every chain ends and every row is on exactly one, once.
// Kept: rows linked by their numbers in the lent words are the form of document 01, and there is no heap
// Kept: CanCheck; the head of this file says why.
pub fn partitions_ok(w: &[u64], a: Linked, b: Linked, c: Linked) -> bool
    requires { CanCheck a.table a.heads w.now × CanCheck b.table b.heads w.now × CanCheck c.table c.heads w.now }
    ensures { result
        ≡ (partition a.table a.heads w.now
        && (partition b.table b.heads w.now && partition c.table c.heads w.now)) }
{
    let mut x = Check::new(w, a);
    let mut y = Check::new(w, b);
    let mut z = Check::new(w, c);
    Check::step_together(&mut x, &mut y, &mut z);
    x.parted(a.heads) && y.parted(b.heads) && z.parted(c.heads)
}
