// What callers of the store say and hear: points, handles, values, calls and replies, and the entries of the store's
// tables. Each function is proved against the definitions in specs/. What the calls do is said in the crate `meaning`;
// nothing here knows a store or a word's place. Rests on nothing.
#![tactic(auto)]

ghost use Rattle.std.specs.Prelude.{◌≡◌};
ghost use Rattle.types.specs.Replies.{of_point, number};
ghost use Rattle.types.specs.Numbers.{pointing, handle, slot_of, generation_of, next_generation};

// The numbers of document 01, each named once for all crates; specs/Limits has the same names.
pub const READINGS: u64 = 1099511627776;

pub const SEATS: u64 = 64;

pub const LAST: u64 = 70368744177663;

pub const SLOTS: u64 = 64;

pub const GENERATIONS: u64 = 65536;

pub const MAX_RECORDS: usize = 1024;

pub const MAX_EDITS: usize = 63;

pub const MAX_ROWS: usize = 4095;

// The states of an edit slot, the modes of a lock, the owner of a settled one.
// Kept: the number that stands in the words; any may stand there, and any may be stored, as it always could.
pub const FREE: u64 = 0;

// Kept: the number that stands in the words; any may stand there, and any may be stored, as it always could.
pub const OPEN: u64 = 1;

// Kept: the number that stands in the words; any may stand there, and any may be stored, as it always could.
pub const COMMITTED: u64 = 2;

// Kept: the number that stands in the words; any may stand there, and any may be stored, as it always could.
pub const ABORTED: u64 = 3;

// Kept: the number that stands in the words; any may stand there, and any may be asked for, as it always could.
pub const READ: u64 = 1;

// Kept: the number that stands in the words; any may stand there, and any may be asked for, as it always could.
pub const WRITE: u64 = 2;

// Kept: the owner that stands in the words of a settled lock, where else a slot's number stands.
pub const SETTLED: u64 = 0;

// A clock reading. Only `Point::of` turns it into a point.
#[derive(Clone, Copy, PartialEq, Eq)]
pub struct Reading(u64);

// A seat number: which desk reads the clock.
#[derive(Clone, Copy, PartialEq, Eq)]
pub struct Seat(u64);

// A point, the paper's timestamp: reading * 64 + seat. Its field is private, so that a bare reading never passes for a
// point.
#[derive(Clone, Copy, PartialEq, Eq)]
pub struct Point(u64);

// The handle of an edit, the paper's transaction: generation * 64 + slot.
#[derive(Clone, Copy, PartialEq, Eq)]
pub struct Handle(u64);

// The value of a record, the paper's key: None if it was never written, or any 64 bits.
pub type Value = Option<u64>;

// The entries of the three tables, by value. A version: its point, its value and its third word.
#[derive(Clone, Copy, PartialEq, Eq)]
pub struct Version {
    pub point: u64,
    pub value: Value,
    // Kept: document 01 gives a version a third word, which no clause judges; it is part of what words mean (DECISIONS)
    pub spare: u64,
}

// A lock of low..high: its mode is 1 for read and 2 for write, its owner a slot, or 0 once settled.
#[derive(Clone, Copy, PartialEq, Eq)]
pub struct Lock {
    pub low: u64,
    pub high: u64,
    // Kept: the two as numbers, since words that nobody checked may have any; the check asks for those listed.
    pub mode: u64,
    pub owner: u64,
}

// What an access writes; or the word that stands in the value's place until it writes, which Read leaves 0.
// Kept: no Option, since that word is part of what words mean too (DECISIONS), and no Result, since none is an error.
#[derive(Clone, Copy, PartialEq, Eq)]
pub enum Pending {
    Written(u64),
    Unwritten(u64),
}

impl Pending {
    ghost use Rattle.std.specs.Prelude.{◌≡◌};
    ghost use Rattle.types.specs.Values.{pending_value, pending_word};

    pub fn written(self) -> Option<u64>
        ensures { result ≡ pending_value self }
    {
        match self {
            Pending::Written(v) => Some(v),
            Pending::Unwritten(_) => None,
        }
    }

    // The word that stands in the value's place.
    pub fn word(self) -> u64
        ensures { result ≡ pending_word self }
    {
        match self {
            Pending::Written(v) => v,
            Pending::Unwritten(x) => x,
        }
    }
}

// What an edit did with a record: `from` is the point read + 1, or 0; `value` what it writes, if it does.
#[derive(Clone, Copy, PartialEq, Eq)]
pub struct Access {
    pub rec: u64,
    // Kept: any word may stand there; Some of the largest point, stored + 1, fits no word: put_access would ask more.
    pub from: u64,
    pub value: Pending,
}

// The five counts of a store.
#[derive(Clone, Copy, PartialEq, Eq)]
pub struct Counts {
    pub records: usize,
    pub edits: usize,
    pub versions: usize,
    pub locks: usize,
    pub accesses: usize,
}

// The flags A and P: all points or none, or a part.
#[derive(Clone, Copy, PartialEq, Eq)]
pub enum Extent {
    All,
    Part,
}

// Where a commit is wanted: E, L or a named point.
#[derive(Clone, Copy, PartialEq, Eq)]
pub enum Pick {
    Earliest,
    Latest,
    Named(Point),
}

// The flags S and K: settle at the end, or keep the locks.
#[derive(Clone, Copy, PartialEq, Eq)]
pub enum Finish {
    Settle,
    Keep,
}

// The calls on a store, in the order of document 01. A record is named by its number.
#[derive(Clone, Copy, PartialEq, Eq)]
pub enum Call {
    Begin,
    Write(Handle, u64, u64),
    Lock(Handle, u64, Point, Point, Extent),
    Read(Handle, u64, Point, Extent),
    Commit(Handle, Pick, Finish),
    Abort(Handle, Finish),
    Settle(Handle),
    Purge(u64, Point),
    View(u64, Point),
}

// The sixteen ways to say no, in the order of their numbers.
#[derive(Clone, Copy, PartialEq, Eq)]
pub enum Refusal {
    Unsound,
    NoEdit,
    EditEnded,
    EditOpen,
    NoRecord,
    BadPoint,
    BelowFloor,
    Held(Handle),
    Frozen,
    NoAccessRow,
    NoLockRow,
    NoVersionRow,
    NoSlot,
    NotCommon,
    LockedBelow,
    BadFormat,
}

// What the calls give where they are granted; a refusal is the `Err` of each call's `Result`. Write, Abort, Settle and
// Format give `()`, Begin a handle, Point a point, and Commit its point, or None for `nopoint`.

// Lock: the first and the last point locked.
#[derive(Clone, Copy, PartialEq, Eq)]
pub struct Span {
    pub low: Point,
    pub high: Point,
}

// Read. A new read: the point of the version, the last point locked, the value.
#[derive(Clone, Copy, PartialEq, Eq)]
pub enum Found {
    Read(Point, Point, Value),
    Own(u64),
    Again(Point, Value),
}

// Purge: the version rows and the lock rows freed.
#[derive(Clone, Copy, PartialEq, Eq)]
pub struct Freed {
    pub versions: u64,
    pub locks: u64,
}

// View: the point and the value of the version.
#[derive(Clone, Copy, PartialEq, Eq)]
pub struct Seen {
    pub point: Point,
    pub value: Value,
}

// What a call of any kind gives where it is granted.
// Kept: a sum of what the nine calls hand out, no Option: `Done` is what Write, Abort and Settle do.
#[derive(Clone, Copy, PartialEq, Eq)]
pub enum Granted {
    Done,
    Edit(Handle),
    Locked(Span),
    Read(Found),
    Commit(Option<Point>),
    Purged(Freed),
    At(Seen),
}

impl From<u64> for Reading {
    ghost from_gives = { λ word r. r.0 ≡ word };

    // `Point::of` refuses one above 2^40 - 1.
    fn from(word: u64) -> Reading {
        Reading(word)
    }
}

impl From<u64> for Seat {
    ghost from_gives = { λ word s. s.0 ≡ word };

    // `Point::of` refuses one above 63.
    fn from(word: u64) -> Seat {
        Seat(word)
    }
}

impl From<u64> for Point {
    ghost from_gives = { λ word p. p.0 ≡ word };

    // A word that already is a point, as scripts and exports carry it. It may lie above LAST: the calls refuse it then.
    fn from(word: u64) -> Point {
        Point(word)
    }
}

impl From<Point> for u64 {
    ghost from_gives = { λ p word. word ≡ p.0 };

    // The number of a point, for replies and rows.
    fn from(p: Point) -> u64 {
        p.0
    }
}

impl From<u64> for Handle {
    ghost from_gives = { λ word h. h.0 ≡ word };

    // The calls refuse one that names no edit.
    fn from(word: u64) -> Handle {
        Handle(word)
    }
}

impl From<Handle> for u64 {
    ghost from_gives = { λ h word. word ≡ h.0 };

    // The number of a handle, for replies.
    fn from(h: Handle) -> u64 {
        h.0
    }
}

impl Point {
    // The call Point: the only way from a reading to a point.
    pub fn of(reading: Reading, seat: Seat) -> Result<Point, Refusal>
        ensures { of_point result ≡ pointing reading.0 seat.0 }
    {
        let r = reading.0;
        let s = seat.0;
        if READINGS <= r {
            return Err(Refusal::BadPoint);
        }
        if SEATS <= s {
            return Err(Refusal::BadPoint);
        }
        Ok(Point(r * SEATS + s))
    }
}

impl Handle {
    // The handle of a slot's edit. A slot is below 256, so the sum fits.
    pub fn of(generation: u16, slot: u8) -> Handle
        ensures { result.0 ≡ handle generation slot }
    {
        Handle(generation as u64 * SLOTS + slot as u64)
    }

    // The slot that it names.
    pub fn slot(self) -> u64
        ensures { result ≡ slot_of self.0 }
    {
        self.0 % SLOTS
    }

    // The generation that it names.
    pub fn generation(self) -> u64
        ensures { result ≡ generation_of self.0 }
    {
        self.0 / SLOTS
    }
}

// The next generation of a slot: after 65,535 comes 0.
pub fn next_generation(g: u16) -> u16
    ensures { result ≡ next_generation g }
{
    g.wrapping_add(1)
}

impl Refusal {
    // The number of a refusal.
    pub fn number(self) -> u64
        ensures { result ≡ number self }
    {
        match self {
            Refusal::Unsound => 1,
            Refusal::NoEdit => 2,
            Refusal::EditEnded => 3,
            Refusal::EditOpen => 4,
            Refusal::NoRecord => 5,
            Refusal::BadPoint => 6,
            Refusal::BelowFloor => 7,
            Refusal::Held(_) => 8,
            Refusal::Frozen => 9,
            Refusal::NoAccessRow => 10,
            Refusal::NoLockRow => 11,
            Refusal::NoVersionRow => 12,
            Refusal::NoSlot => 13,
            Refusal::NotCommon => 14,
            Refusal::LockedBelow => 15,
            Refusal::BadFormat => 16,
        }
    }
}
