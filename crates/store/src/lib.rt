// The public calls of the store, on lent words. Each checks the words first (refusal 1) and then does what its
// definition says; none has a `requires`. The contract of each settles its reply and what the words mean afterwards,
// for every slice and argument. The calls below are lent an index that says nothing, a slice of one number: to make one
// would take longer than a call. Rests on the crates `types`, `meaning`, `tables`, `soundness`, `format`, `lookups`,
// `index`, `calls`, `locking`, `reading`, `endings`, `commits` and `purges`.
#![tactic(auto)]

ghost use Rattle.types.specs.Replies.{of_point, of_done, of_begin, of_lock, of_read, of_commit};
ghost use Rattle.types.specs.Replies.{of_purge, of_view, of_answer};
ghost use Rattle.meaning.specs.Edits.{beginning, writing};
ghost use Rattle.meaning.specs.Locking.{locking, reading};
ghost use Rattle.meaning.specs.Ending.{committing, aborting, settling};
ghost use Rattle.std.specs.Prelude.{◌≡◌};
ghost use Rattle.meaning.specs.Records.{purging, viewing};
ghost use Rattle.types.specs.Numbers.{pointing};
ghost use Rattle.format.specs.Format.{Formats};
ghost use Rattle.meaning.specs.Calls.{act};
ghost use Rattle.store.specs.Promises.{Does, Shows, may_begin, sound_or_refused};

use tables::Tables;
use types::{
    Call, Counts, Extent, Finish, Found, Freed, Granted, Handle, Pick, Point, Reading, Refusal,
    Seat, Seen, Span,
};

// The index that the calls are lent: it says nothing.
const NO_INDEX: [u16; 1] = [index::UNKNOWN; 1];

// Refusal 1, unless the words are a sound store. For callers that check once and call often.
pub fn check(words: &[u64]) -> Result<(), Refusal>
    ensures { result ≡ sound_or_refused words.now }
{
    if soundness::check(words) {
        Ok(())
    } else {
        Err(Refusal::Unsound)
    }
}

// The point of a clock reading and a seat.
// Kept: the public name of `Point::of`, beside those of the other calls.
pub fn point(reading: Reading, seat: Seat) -> Result<Point, Refusal>
    ensures { of_point result ≡ pointing reading.0 seat.0 }
{
    Point::of(reading, seat)
}

// A fresh store in the slice, whatever it held.
// Kept: the public name of `format::format`; Format takes the words and the counts that it lays out in them.
pub fn format(words: &mut [u64], counts: Counts) -> Result<(), Refusal>
    ensures { Formats counts words.old words.new (of_done result) }
{
    format::format(words, counts)
}

pub fn begin(words: &mut [u64]) -> Result<Handle, Refusal>
    ensures { Does beginning words.old words.new (of_begin result) }
{
    check(words)?;
    calls::begin(words)
}

// Begin that only looks: `Ok` if it would find a slot, or how it would be refused; nothing is changed.
// Kept: it shares `check` and `?` with the calls below; what follows is its own.
pub fn would_begin(words: &[u64]) -> Result<(), Refusal>
    ensures { Shows may_begin words.now (of_done result) }
{
    check(words)?;
    let tables = Tables {
        words,
        counts: tables::counts_of(words),
    };
    lookups::free_slot(tables).ok_or(Refusal::NoSlot)?;
    Ok(())
}

// Kept: `check(words)?` and `&NO_INDEX` are all that the calls share; a closure for the rest would be longer. Handle
// and record are the call's parameters in document 01.
pub fn write(words: &mut [u64], h: Handle, rec: u64, value: u64) -> Result<(), Refusal>
    ensures { Does (writing h.0 rec value) words.old words.new (of_done result) }
{
    check(words)?;
    calls::write(words, h, rec, value, &NO_INDEX)
}

// Kept: as `write`; low and high are the call's parameters in document 01 too, and its public signature has both.
pub fn lock(
    words: &mut [u64],
    h: Handle,
    rec: u64,
    low: Point,
    high: Point,
    extent: Extent,
) -> Result<Span, Refusal>
    ensures { Does (locking h.0 rec low.0 high.0 extent) words.old words.new (of_lock result) }
{
    check(words)?;
    locking::lock(words, h, rec, low, high, extent)
}

// Kept: as `write`.
pub fn read(
    words: &mut [u64],
    h: Handle,
    rec: u64,
    m: Point,
    extent: Extent,
) -> Result<Found, Refusal>
    ensures { Does (reading h.0 rec m.0 extent) words.old words.new (of_read result) }
{
    check(words)?;
    reading::read(words, h, rec, m, extent, &NO_INDEX)
}

// Kept: as `write`.
pub fn commit(
    words: &mut [u64],
    h: Handle,
    pick: Pick,
    finish: Finish,
) -> Result<Option<Point>, Refusal>
    ensures { Does (committing h.0 pick finish) words.old words.new (of_commit result) }
{
    check(words)?;
    commits::commit(words, h, pick, finish, &NO_INDEX)
}

// Kept: as `write`.
pub fn abort(words: &mut [u64], h: Handle, finish: Finish) -> Result<(), Refusal>
    ensures { Does (aborting h.0 finish) words.old words.new (of_done result) }
{
    check(words)?;
    endings::abort(words, h, finish, &NO_INDEX)
}

// Kept: as `write`.
pub fn settle(words: &mut [u64], h: Handle) -> Result<(), Refusal>
    ensures { Does (settling h.0) words.old words.new (of_done result) }
{
    check(words)?;
    endings::settle(words, h, &NO_INDEX)
}

// Kept: as `write`.
pub fn purge(words: &mut [u64], rec: u64, b: Point) -> Result<Freed, Refusal>
    ensures { Does (purging rec b.0) words.old words.new (of_purge result) }
{
    check(words)?;
    purges::purge(words, rec, b)
}

// Kept: as `write`.
pub fn view(words: &[u64], rec: u64, p: Point) -> Result<Seen, Refusal>
    ensures { Shows (viewing rec p.0) words.now (of_view result) }
{
    check(words)?;
    calls::view(words, rec, p)
}

// A call of any kind.
// Kept: `opened::perform`, above this crate, has these arms with an index; a trait would say nine contracts thrice.
pub fn perform(words: &mut [u64], call: Call) -> Result<Granted, Refusal>
    ensures { Does (act call) words.old words.new (of_answer result) }
{
    Ok(match call {
        Call::Begin => Granted::Edit(begin(words)?),
        Call::Write(h, rec, value) => {
            write(words, h, rec, value)?;
            Granted::Done
        }
        Call::Lock(h, rec, low, high, extent) => Granted::Locked(lock(
            words, h, rec, low, high, extent,
        )?),
        Call::Read(h, rec, m, extent) => Granted::Read(read(words, h, rec, m, extent)?),
        Call::Commit(h, pick, finish) => Granted::Commit(commit(words, h, pick, finish)?),
        Call::Abort(h, finish) => {
            abort(words, h, finish)?;
            Granted::Done
        }
        Call::Settle(h) => {
            settle(words, h)?;
            Granted::Done
        }
        Call::Purge(rec, b) => Granted::Purged(purge(words, rec, b)?),
        Call::View(rec, p) => Granted::At(view(words, rec, p)?),
    })
}
