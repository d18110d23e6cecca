// The library that a product links: each call as a C function over lent words and numbers, and many calls as one. A
// call returns 0 for granted, else the number of the refusal. None has a `requires`; the contract of each is the
// promise of its call. Rests on the crates `types`, `meaning`, `format`, `store`, `codes`, `verdicts`, `telling`,
// `batch`, `asks`, `layers`, `desk` and `sessions`. The module `in_session` has the calls of a session.
#![tactic(auto)]

ghost use Rattle.std.specs.Prelude.{◌≡◌, [], ◌∷◌};
ghost use Rattle.meaning.specs.Edits.{beginning, writing};
ghost use Rattle.meaning.specs.Locking.{locking, reading};
ghost use Rattle.meaning.specs.Ending.{committing, aborting, settling};
ghost use Rattle.meaning.specs.Records.{purging, viewing};
ghost use Rattle.types.specs.Numbers.{pointing};
ghost use Rattle.types.specs.declared.Pick.TheVariants.{Earliest, Latest};
ghost use Rattle.format.specs.Format.{Formats};
ghost use Rattle.store.specs.Promises.{Does, Shows};
ghost use Rattle.codes.specs.Codes.{Answers, extent_of, finish_of, named, counts};
ghost use Rattle.batch.specs.Runs.{Runs};
ghost use Rattle.asks.specs.Views.{Views};
ghost use Rattle.layers.specs.Serial.{Layer};
ghost use Rattle.desk.specs.Desk.{desk_open, desk_read, desk_write, desk_commit};
ghost use Rattle.sessions.specs.Sessions.{setting_of, session_of, Opens, Reports};

mod in_session;

use types::{Counts, Handle, Pick, Point, Reading, Seat};

// Point: the only call that needs no store.
// Kept: the C header asks for it: the reply is a number, each value at a pointer.
#[unsafe(no_mangle)]
pub extern "C" fn zohetiwa_point(clock: u64, seat: u64, point: &mut u64) -> u64
    ensures { Answers (λ r. r ≡ pointing clock seat) result
        (point.old ∷ [])
        (point.new ∷ []) }
{
    let reply = store::point(Reading::from(clock), Seat::from(seat));
    telling::point(reply, point)
}

// Format. The counts are lengths of tables, so they are sizes.
// Kept: the C header asks for it: the reply is a number.
#[unsafe(no_mangle)]
pub extern "C" fn zohetiwa_format(
    words: &mut [u64],
    records: usize,
    edits: usize,
    versions: usize,
    locks: usize,
    accesses: usize,
) -> u64
    ensures { Answers
        (Formats (counts records edits versions locks accesses) words.old words.new)
        result [] [] }
{
    let reply = store::format(
        words,
        Counts {
            records,
            edits,
            versions,
            locks,
            accesses,
        },
    );
    verdicts::done(reply)
}

// Begin: the handle of the edit.
// Kept: the C header asks for it: the reply is a number, each value at a pointer.
#[unsafe(no_mangle)]
pub extern "C" fn zohetiwa_begin(words: &mut [u64], handle: &mut u64) -> u64
    ensures { Answers (Does beginning words.old words.new) result
        (handle.old ∷ [])
        (handle.new ∷ []) }
{
    let reply = store::begin(words);
    telling::begin(reply, handle)
}

// Write: no further values.
// Kept: the C header asks for it: the reply is a number.
#[unsafe(no_mangle)]
pub extern "C" fn zohetiwa_write(words: &mut [u64], handle: u64, rec: u64, value: u64) -> u64
    ensures { Answers (Does (writing handle rec value) words.old words.new) result [] [] }
{
    let reply = store::write(words, Handle::from(handle), rec, value);
    verdicts::done(reply)
}

// Lock: the first and the last point locked.
// Kept: the C header asks for it: reply and flag are numbers, each value at a pointer.
#[unsafe(no_mangle)]
pub extern "C" fn zohetiwa_lock(
    words: &mut [u64],
    handle: u64,
    rec: u64,
    low: u64,
    high: u64,
    part: u64,
    first: &mut u64,
    last: &mut u64,
) -> u64
    ensures { Answers (Does (locking handle rec low high (extent_of part)) words.old words.new) result
        (first.old ∷ last.old ∷ [])
        (first.new ∷ last.new ∷ []) }
{
    let h = Handle::from(handle);
    let from = Point::from(low);
    let to = Point::from(high);
    let reply = store::lock(words, h, rec, from, to, codes::extent(part));
    telling::lock(reply, first, last)
}

// Read: which of its three replies, the point of the version, the last point locked, whether the value was ever
// written, its bits.
// Kept: the C header asks for it: reply and flag are numbers, each value at a pointer.
#[unsafe(no_mangle)]
pub extern "C" fn zohetiwa_read(
    words: &mut [u64],
    handle: u64,
    rec: u64,
    m: u64,
    part: u64,
    kind: &mut u64,
    tr: &mut u64,
    end: &mut u64,
    written: &mut u64,
    value: &mut u64,
) -> u64
    ensures { Answers (Does (reading handle rec m (extent_of part)) words.old words.new) result
        (kind.old ∷ tr.old ∷ end.old ∷ written.old ∷ value.old ∷ [])
        (kind.new ∷ tr.new ∷ end.new ∷ written.new ∷ value.new ∷ []) }
{
    let h = Handle::from(handle);
    let upto = Point::from(m);
    let reply = store::read(words, h, rec, upto, codes::extent(part));
    telling::read(reply, kind, tr, end, written, value)
}

// Commit at a choice of the point.
// Kept: it takes C's numbers, so that `Handle::from` and `codes::finish` are said once for the three below.
fn commit(words: &mut [u64], handle: u64, pick: Pick, keep: u64, point: &mut u64) -> u64
    ensures { Answers (Does (committing handle pick (finish_of keep)) words.old words.new) result
        (point.old ∷ [])
        (point.new ∷ []) }
{
    let reply = store::commit(words, Handle::from(handle), pick, codes::finish(keep));
    telling::commit(reply, point)
}

// Commit, a function for each choice of the point: the commit point.
// Kept: the C header asks for it: reply and flag are numbers, each value at a pointer.
#[unsafe(no_mangle)]
pub extern "C" fn zohetiwa_commit_earliest(
    words: &mut [u64],
    handle: u64,
    keep: u64,
    point: &mut u64,
) -> u64
    ensures { Answers (Does (committing handle Earliest (finish_of keep)) words.old words.new) result
        (point.old ∷ [])
        (point.new ∷ []) }
{
    commit(words, handle, Pick::Earliest, keep, point)
}

// Kept: the C header asks for it: reply and flag are numbers, each value at a pointer.
#[unsafe(no_mangle)]
pub extern "C" fn zohetiwa_commit_latest(
    words: &mut [u64],
    handle: u64,
    keep: u64,
    point: &mut u64,
) -> u64
    ensures { Answers (Does (committing handle Latest (finish_of keep)) words.old words.new) result
        (point.old ∷ [])
        (point.new ∷ []) }
{
    commit(words, handle, Pick::Latest, keep, point)
}

// Kept: the C header asks for it: reply and flag are numbers, each value at a pointer.
#[unsafe(no_mangle)]
pub extern "C" fn zohetiwa_commit_at(
    words: &mut [u64],
    handle: u64,
    at: u64,
    keep: u64,
    point: &mut u64,
) -> u64
    ensures { Answers (Does (committing handle (named at) (finish_of keep)) words.old words.new) result
        (point.old ∷ [])
        (point.new ∷ []) }
{
    commit(words, handle, Pick::Named(Point::from(at)), keep, point)
}

// Abort: no further values.
// Kept: the C header asks for it: reply and flag are numbers.
#[unsafe(no_mangle)]
pub extern "C" fn zohetiwa_abort(words: &mut [u64], handle: u64, keep: u64) -> u64
    ensures { Answers (Does (aborting handle (finish_of keep)) words.old words.new) result [] [] }
{
    let reply = store::abort(words, Handle::from(handle), codes::finish(keep));
    verdicts::done(reply)
}

// Settle: no further values.
// Kept: the C header asks for it: the reply is a number.
#[unsafe(no_mangle)]
pub extern "C" fn zohetiwa_settle(words: &mut [u64], handle: u64) -> u64
    ensures { Answers (Does (settling handle) words.old words.new) result [] [] }
{
    let reply = store::settle(words, Handle::from(handle));
    verdicts::done(reply)
}

// Purge: the version rows and the lock rows freed.
// Kept: the C header asks for it: the reply is a number, each value at a pointer.
#[unsafe(no_mangle)]
pub extern "C" fn zohetiwa_purge(
    words: &mut [u64],
    rec: u64,
    b: u64,
    versions: &mut u64,
    locks: &mut u64,
) -> u64
    ensures { Answers (Does (purging rec b) words.old words.new) result
        (versions.old ∷ locks.old ∷ [])
        (versions.new ∷ locks.new ∷ []) }
{
    let reply = store::purge(words, rec, Point::from(b));
    telling::purge(reply, versions, locks)
}

// View: the point of the version, whether it was ever written, its bits.
// Kept: the C header asks for it: the reply is a number, each value at a pointer.
#[unsafe(no_mangle)]
pub extern "C" fn zohetiwa_view(
    words: &[u64],
    rec: u64,
    p: u64,
    point: &mut u64,
    written: &mut u64,
    value: &mut u64,
) -> u64
    ensures { Answers (Shows (viewing rec p) words.now) result
        (point.old ∷ written.old ∷ value.old ∷ [])
        (point.new ∷ written.new ∷ value.new ∷ []) }
{
    let reply = store::view(words, rec, Point::from(p));
    telling::view(reply, point, written, value)
}

// Many calls after one check of the words: how many were done. The crate `encoding` says what the words of a call and
// of a reply mean.
// Kept: the C header asks for it: list and replies are two arrays, and the answer is how many.
#[unsafe(no_mangle)]
pub extern "C" fn zohetiwa_batch(words: &mut [u64], calls: &[u64], replies: &mut [u64]) -> u64
    ensures { Runs calls.now
        words.old words.new
        replies.old replies.new result }
{
    batch::run(words, calls, replies) as u64
}

// Many views after one check of the words: how many were answered.
// Kept: the C header asks for it: list and replies are two arrays, and the answer is how many.
#[unsafe(no_mangle)]
pub extern "C" fn zohetiwa_views(words: &[u64], asks: &[u64], replies: &mut [u64]) -> u64
    ensures { Views words.now asks.now replies.old replies.new result }
{
    asks::views(words, asks, replies) as u64
}

// The planning desk. The session is an array of the caller's, which the crate `sessions` reads and updates. Open: a new
// edit with the working interval t to t + width.
// Kept: the C header asks for it: the reply is a number, the setting too, the session an array.
#[unsafe(no_mangle)]
pub extern "C" fn zohetiwa_desk_open(
    words: &mut [u64],
    t: u64,
    width: u64,
    latest: u64,
    session: &mut [u64; sessions::WORDS],
) -> u64
    ensures { Opens (Layer (desk_open t width (setting_of latest)) words.old words.new) result
        session.old session.new }
{
    let reply = desk::open(words, Point::from(t), width, sessions::setting(latest));
    sessions::open(reply, session)
}

// Read: as `zohetiwa_read`, up to the interval's end, or that nothing of the interval is left.
// Kept: the C header asks for it: the reply is a number, the session an array, each value at a pointer.
#[unsafe(no_mangle)]
pub extern "C" fn zohetiwa_desk_read(
    words: &mut [u64],
    session: &mut [u64; sessions::WORDS],
    rec: u64,
    kind: &mut u64,
    tr: &mut u64,
    end: &mut u64,
    written: &mut u64,
    value: &mut u64,
) -> u64
    ensures { Reports
        (Layer (desk_read (session_of session.old) rec) words.old words.new) result
        (kind.old ∷ tr.old ∷ end.old ∷ written.old ∷ value.old ∷ [])
        (kind.new ∷ tr.new ∷ end.new ∷ written.new ∷ value.new ∷ [])
        session.old session.new }
{
    let step = desk::read_with(words, sessions::session_of(session), rec);
    sessions::read(step, session, kind, tr, end, written, value)
}

// Write: locks the interval, then stores the value.
// Kept: the C header asks for it: the reply is a number, the session an array.
#[unsafe(no_mangle)]
pub extern "C" fn zohetiwa_desk_write(
    words: &mut [u64],
    session: &mut [u64; sessions::WORDS],
    rec: u64,
    value: u64,
) -> u64
    ensures { Reports
        (Layer (desk_write (session_of session.old) rec value) words.old words.new) result
        [] []
        session.old session.new }
{
    let step = desk::write_with(words, sessions::session_of(session), rec, value);
    sessions::write(step, session)
}

// Commit: at an end of the interval left, by the session's setting; settles.
// Kept: the C header asks for it: the reply is a number, the session an array, each value at a pointer.
#[unsafe(no_mangle)]
pub extern "C" fn zohetiwa_desk_commit(
    words: &mut [u64],
    session: &mut [u64; sessions::WORDS],
    point: &mut u64,
) -> u64
    ensures { Reports
        (Layer (desk_commit (session_of session.old)) words.old words.new) result
        (point.old ∷ []) (point.new ∷ [])
        session.old session.new }
{
    let step = desk::commit_with(words, sessions::session_of(session));
    sessions::commit(step, session, point)
}
