// The index beside the words: for each edit slot the records that it has touched, by an access or by a lock. It may say
// too much and never too little; a slice of another length than `INDEX` says nothing, and one of which every number is
// `UNKNOWN` is right of every store. The calls only read it; `begun` and `touch` keep it after them. Rests on the
// crates `types`, `meaning`, `chains`, `tables` and `lookups`. A caller proves that slots and records are in range.
// Kept, index and slot: numbers lent to be changed; a struct of both would have to promise that they stay lent.
// Kept, k < SLOTS: for what reads, `IndexOf` holds it; for what changes the numbers, which that borrows, a struct of
// the one number would be made for one call.
// Kept, r < MARKS: one number, which `touch` tested or the tables bound; a struct of it would be made for one call.
// Kept, r < c.records: no words in it; a struct of counts and number would be made for one call.
// Kept, Indexed: between words that change and an index, which C callers lend one beside the other.
// Kept, length ix ≡ INDEX: what `mark` and `clear` have tested, of numbers that change.
// Kept, places: `LISTS + k * LIST` and `k * MARKS + r` as they stand. A function for each was tried: its contract says
// the same sum, its calls ask for k < SLOTS again, and the proofs of seven functions would rewrite by it.
// Kept, handle and record: the parameters of the calls that touch a record, in document 01.
#![tactic(auto)]

ghost use Rattle.std.specs.Prelude.{◌≡◌, true, false, ◌<◌, length};
ghost use Rattle.types.specs.Replies.{of_begin};
ghost use Rattle.tables.specs.Decode.{AccessRow};
ghost use Rattle.tables.specs.Views.{store_in};
ghost use Rattle.types.specs.Limits.{SLOTS};
ghost use Rattle.index.specs.Index.{MARKS, INDEX, count_of, silent, known, turns, turn, Indexed};
ghost use Rattle.index.specs.Index.{RightOfAll, Marked, Cleared, Touched, Begun};
ghost use Rattle.index.specs.Entries.{Added, Unmarked, Wiped};

use tables::Slot;
use types::{Handle, MAX_RECORDS, Refusal, SLOTS};

// A mark for each record that there can be, for each of 64 slots; then for each slot a list: how many records it has,
// and 63 places for them.
const MARKS: usize = MAX_RECORDS;

// Kept: places; the head of this file says why.
const LISTS: usize = SLOTS as usize * MARKS;

const LISTED: u16 = 63;

const LIST: usize = 64;

// How many numbers an index has.
pub const INDEX: usize = LISTS + SLOTS as usize * LIST;

// What every number of an index is that knows nothing.
// Kept: a number in memory that C callers lend, where any may stand; it stands for a list that is given up, too.
pub const UNKNOWN: u16 = 65535;

// What an index says of one slot.
#[derive(Clone, Copy)]
pub struct IndexOf<'a> {
    pub numbers: &'a [u16],
    pub slot: usize,
    ghost of_slot: { slot < SLOTS },
}

impl<'a> IndexOf<'a> {
    // Whether it says that the slot has not touched record r.
    // Kept: no search: the mark stands at its place in numbers that C callers lend, where a map would need a heap.
    // Kept: r < MARKS; the head of this file says why.
    pub fn silent(self, r: usize) -> bool
        requires { r < MARKS }
        ensures { result ≡ silent self.entry.numbers.now self.entry.slot r }
    {
        self.numbers.len() == INDEX && self.numbers[self.slot * MARKS + r] == 0
    }

    // Whether the slot's list has every record that is marked.
    fn known(self) -> bool
        ensures { result ≡ known self.entry.numbers.now self.entry.slot }
    {
        self.numbers.len() == INDEX && self.numbers[LISTS + self.slot * LIST] <= LISTED
    }

    // A loop of so many turns meets every one of n records that the slot may have touched.
    pub fn turns(self, n: usize) -> usize
        ensures { result ≡ turns self.entry.numbers.now self.entry.slot n }
    {
        if self.known() {
            return self.numbers[LISTS + self.slot * LIST] as usize;
        }
        n
    }

    // The record of its turn i.
    // Kept: no iterator over the list, which would borrow the numbers while `wipe_listed` takes its marks away.
    pub fn turn(self, i: usize) -> usize
        requires { known self.numbers.now self.slot ≡ true → i < count_of self.numbers.now self.slot }
        ensures { result ≡ turn self.entry.numbers.now self.entry.slot i }
    {
        if self.known() {
            return self.numbers[LISTS + self.slot * LIST + 1 + i] as usize;
        }
        i
    }
}

// An index of which nothing is known yet: it says nothing of any slot until the slot's next Begin.
pub fn forget(ix: &mut [u16])
    ensures { RightOfAll ix.new }
{
    ix.fill(UNKNOWN);
}

// The row of the slot's access of record r; the words are walked where the index does not say that there is none.
// Kept: r < c.records, Indexed; the head of this file says why.
pub fn access_row(s: Slot<'_>, r: u64, ix: &[u16]) -> Option<usize>
    requires { (r < s.tables.counts.records) × Indexed (store_in s.tables) ix.now }
    ensures { AccessRow s.entry.tables.counts s.entry.tables.words.now s.entry.number r result }
{
    let of_slot = IndexOf {
        numbers: ix,
        slot: s.number,
    };
    if of_slot.silent(r as usize) {
        return None;
    }
    lookups::access_row(s, r)
}

// Record r comes to slot k's list, which is given up where it is full.
// Kept: the list and its length are numbers in the memory that C callers lend.
// Kept: index and slot, k < SLOTS, r < MARKS, length ix ≡ INDEX; the head of this file says why.
fn add(ix: &mut [u16], k: usize, r: usize)
    requires { (length ix.old ≡ INDEX) × (k < SLOTS) × (r < MARKS) }
    ensures { Added ix.old ix.new k r }
{
    let n = ix[LISTS + k * LIST];
    if n < LISTED {
        ix[LISTS + k * LIST + 1 + n as usize] = r as u16;
        ix[LISTS + k * LIST] = n + 1;
    } else {
        ix[LISTS + k * LIST] = UNKNOWN;
    }
}

// Slot k touches record r.
// Kept: index and slot, k < SLOTS, r < MARKS; the head of this file says why.
fn mark(ix: &mut [u16], k: usize, r: usize)
    requires { (k < SLOTS) × (r < MARKS) }
    ensures { Marked ix.old ix.new k r }
{
    let of_slot = IndexOf {
        numbers: ix,
        slot: k,
    };
    if of_slot.silent(r) {
        ix[k * MARKS + r] = 1;
        add(ix, k, r);
    }
}

// The mark of slot k and record r goes, if there can be such a record.
// Kept: index and slot, k < SLOTS, length ix ≡ INDEX; the head of this file says why.
fn unmark(ix: &mut [u16], k: usize, r: usize)
    requires { (length ix.old ≡ INDEX) × (k < SLOTS) }
    ensures { Unmarked ix.old ix.new k r }
{
    if r < MARKS {
        ix[k * MARKS + r] = 0;
    }
}

// The marks of slot k's list go.
// Kept: index and slot, k < SLOTS, length ix ≡ INDEX; the head of this file says why.
fn wipe_listed(ix: &mut [u16], k: usize)
    requires { (length ix.old ≡ INDEX) × (k < SLOTS) }
    ensures { Wiped ix.old ix.new k (turns ix.old k MARKS) }
{
    let before = IndexOf {
        numbers: ix,
        slot: k,
    };
    let turns = before.turns(MARKS);
    for i in 0..turns {
        let now = IndexOf {
            numbers: ix,
            slot: k,
        };
        let r = now.turn(i);
        unmark(ix, k, r);
    }
}

// All marks of slot k go: the same where no list is kept, and quicker than turn by turn.
// Kept: `fill` is the method for it.
// Kept: index and slot, k < SLOTS, length ix ≡ INDEX; the head of this file says why.
fn wipe_all(ix: &mut [u16], k: usize)
    requires { (length ix.old ≡ INDEX) × (k < SLOTS) × (known ix.old k ≡ false) }
    ensures { Wiped ix.old ix.new k (turns ix.old k MARKS) }
{
    ix[k * MARKS..(k + 1) * MARKS].fill(0);
}

// All marks of slot k that are set go.
// Kept: one `if` with two ways: a list names the marks that are set, and where none is kept any of them may be.
// Kept: index and slot, k < SLOTS, length ix ≡ INDEX; the head of this file says why.
fn wipe(ix: &mut [u16], k: usize)
    requires { (length ix.old ≡ INDEX) × (k < SLOTS) }
    ensures { Wiped ix.old ix.new k (turns ix.old k MARKS) }
{
    let of_slot = IndexOf {
        numbers: ix,
        slot: k,
    };
    if of_slot.known() {
        wipe_listed(ix, k);
    } else {
        wipe_all(ix, k);
    }
}

// Slot k is new: it has touched no record.
// Kept: index and slot, k < SLOTS; the head of this file says why.
fn clear(ix: &mut [u16], k: usize)
    requires { k < SLOTS }
    ensures { Cleared ix.old ix.new k }
{
    if ix.len() == INDEX {
        wipe(ix, k);
        ix[LISTS + k * LIST] = 0;
    }
}

// Write, Lock and Read, granted or not: the edit of the handle touches the record, if there can be such a record.
// Kept: handle and record; the head of this file says why.
pub fn touch(ix: &mut [u16], h: Handle, rec: u64)
    ensures { Touched ix.old ix.new h.0 rec }
{
    let r = rec as usize;
    if r < MARKS {
        mark(ix, h.slot() as usize, r);
    }
}

// Begin: the slot of a new edit. The other calls only take away, so that they change nothing here.
pub fn begun(ix: &mut [u16], r: Result<Handle, Refusal>)
    ensures { Begun ix.old ix.new (of_begin r) }
{
    if let Ok(h) = r {
        clear(ix, h.slot() as usize);
    }
}
