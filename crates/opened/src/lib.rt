// A session: words that were checked when it was opened, an index beside them, and calls on both without a check. For
// callers who prove that words and index are still as the opening or the last call left them (`Opened`). Not a desk's
// session, which the crate `sessions` has. Rests on the crates `types`, `meaning`, `tables`, `index`, `calls`,
// `locking`, `reading`, `endings`, `commits`, `purges` and `store`.
#![tactic(auto)]

ghost use Rattle.std.specs.Prelude.{◌≡◌, true};
ghost use Rattle.types.specs.Replies.{of_begin, of_done, of_lock, of_read, of_commit, of_purge};
ghost use Rattle.types.specs.Replies.{of_view};
ghost use Rattle.types.specs.Replies.{of_answer};
ghost use Rattle.meaning.specs.Edits.{beginning, writing};
ghost use Rattle.meaning.specs.Locking.{locking, reading};
ghost use Rattle.meaning.specs.Ending.{committing, aborting, settling};
ghost use Rattle.meaning.specs.Records.{purging, viewing};
ghost use Rattle.meaning.specs.Calls.{act};
ghost use Rattle.tables.specs.Words.{lent, sound_words};
ghost use Rattle.store.specs.Promises.{Shows};
ghost use Rattle.opened.specs.Opened.{Opened, Opens, Within};

use types::{
    Call, Extent, Finish, Found, Freed, Granted, Handle, Pick, Point, Refusal, Seen, Span,
};

// Opens a session, if the words are sound. The index then knows nothing of the slots until their next Begin.
// Kept: words and index are lent to be changed; over a struct of both each contract would promise that they stay
// (Rattle's docs/BORROWS.md).
pub fn open(words: &[u64], ix: &mut [u16]) -> Result<(), Refusal>
    ensures { Opens words.now ix.old ix.new (of_done result) }
{
    store::check(words)?;
    index::forget(ix);
    Ok(())
}

// Kept: as `open`; `Opened` is a fact of both, which a struct over `&mut` words cannot hold while they change. Beside
// `store::begin`, with no check and with the index: a trait would say nine contracts thrice, as at `store::perform`.
pub fn begin(words: &mut [u64], ix: &mut [u16]) -> Result<Handle, Refusal>
    requires { Opened words.old ix.old }
    ensures { Within beginning words.old words.new ix.new (of_begin result) }
{
    let reply = calls::begin(words);
    index::begun(ix, reply);
    reply
}

// Kept: as `begin`; handle and record are the call's parameters in document 01.
pub fn write(
    words: &mut [u64],
    ix: &mut [u16],
    h: Handle,
    rec: u64,
    value: u64,
) -> Result<(), Refusal>
    requires { Opened words.old ix.old }
    ensures { Within (writing h.0 rec value) words.old words.new ix.new (of_done result) }
{
    let reply = calls::write(words, h, rec, value, ix);
    index::touch(ix, h, rec);
    reply
}

// Kept: as `write`, of which it shares the one line `index::touch`; low and high are the call's parameters too.
pub fn lock(
    words: &mut [u64],
    ix: &mut [u16],
    h: Handle,
    rec: u64,
    low: Point,
    high: Point,
    extent: Extent,
) -> Result<Span, Refusal>
    requires { Opened words.old ix.old }
    ensures { Within (locking h.0 rec low.0 high.0 extent)
        words.old words.new ix.new (of_lock result) }
{
    let reply = locking::lock(words, h, rec, low, high, extent);
    index::touch(ix, h, rec); // with no access too: Settle has to find the lock
    reply
}

// Kept: as `lock`.
pub fn read(
    words: &mut [u64],
    ix: &mut [u16],
    h: Handle,
    rec: u64,
    m: Point,
    extent: Extent,
) -> Result<Found, Refusal>
    requires { Opened words.old ix.old }
    ensures { Within (reading h.0 rec m.0 extent) words.old words.new ix.new (of_read result) }
{
    let reply = reading::read(words, h, rec, m, extent, ix);
    index::touch(ix, h, rec);
    reply
}

// Kept: as `begin`; finish and index are what the call takes, in document 01, and what the session lends it.
pub fn commit(
    words: &mut [u64],
    ix: &mut [u16],
    h: Handle,
    pick: Pick,
    finish: Finish,
) -> Result<Option<Point>, Refusal>
    requires { Opened words.old ix.old }
    ensures { Within (committing h.0 pick finish) words.old words.new ix.new (of_commit result) }
{
    commits::commit(words, h, pick, finish, ix)
}

// Kept: as `commit`.
pub fn abort(words: &mut [u64], ix: &mut [u16], h: Handle, finish: Finish) -> Result<(), Refusal>
    requires { Opened words.old ix.old }
    ensures { Within (aborting h.0 finish) words.old words.new ix.new (of_done result) }
{
    endings::abort(words, h, finish, ix)
}

// Kept: as `begin`.
pub fn settle(words: &mut [u64], ix: &mut [u16], h: Handle) -> Result<(), Refusal>
    requires { Opened words.old ix.old }
    ensures { Within (settling h.0) words.old words.new ix.new (of_done result) }
{
    endings::settle(words, h, ix)
}

// Kept: as `begin`.
pub fn purge(words: &mut [u64], ix: &mut [u16], rec: u64, b: Point) -> Result<Freed, Refusal>
    requires { Opened words.old ix.old }
    ensures { Within (purging rec b.0) words.old words.new ix.new (of_purge result) }
{
    purges::purge(words, rec, b)
}

// View needs no index, and changes none: it may be asked of words that are lent to many.
// Kept: beside `store::view`, as `begin`; sound words are what the opening told, of words that calls change.
pub fn view(words: &[u64], rec: u64, p: Point) -> Result<Seen, Refusal>
    requires { sound_words (lent words.now) ≡ true }
    ensures { Shows (viewing rec p.0) words.now (of_view result) }
{
    calls::view(words, rec, p)
}

// A call of any kind.
// Kept: as `begin`; see `store::perform`.
pub fn perform(words: &mut [u64], ix: &mut [u16], call: Call) -> Result<Granted, Refusal>
    requires { Opened words.old ix.old }
    ensures { Within (act call) words.old words.new ix.new (of_answer result) }
{
    Ok(match call {
        Call::Begin => Granted::Edit(begin(words, ix)?),
        Call::Write(h, rec, value) => {
            write(words, ix, h, rec, value)?;
            Granted::Done
        }
        Call::Lock(h, rec, low, high, extent) => Granted::Locked(lock(
            words, ix, h, rec, low, high, extent,
        )?),
        Call::Read(h, rec, m, extent) => Granted::Read(read(words, ix, h, rec, m, extent)?),
        Call::Commit(h, pick, finish) => Granted::Commit(commit(words, ix, h, pick, finish)?),
        Call::Abort(h, finish) => {
            abort(words, ix, h, finish)?;
            Granted::Done
        }
        Call::Settle(h) => {
            settle(words, ix, h)?;
            Granted::Done
        }
        Call::Purge(rec, b) => Granted::Purged(purge(words, ix, rec, b)?),
        Call::View(rec, p) => Granted::At(view(words, rec, p)?),
    })
}
