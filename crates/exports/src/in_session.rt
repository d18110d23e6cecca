// The calls of a session: each does what its public call does, without the check. For callers who leave words and index
// alone between the opening and the last call, which is what `requires` says. Rests on the crates `types`, `meaning`,
// `codes`, `verdicts`, `telling` and `opened`.
// Kept, Opened: a fact of two arrays that C lends, which a struct over `&mut` words cannot hold while they change
// Kept, sound words: the same of the words alone
ghost use Rattle.std.specs.Prelude.{◌≡◌, true, [], ◌∷◌};
ghost use Rattle.meaning.specs.Edits.{beginning, writing};
ghost use Rattle.meaning.specs.Locking.{locking, reading};
ghost use Rattle.meaning.specs.Ending.{committing, aborting, settling};
ghost use Rattle.meaning.specs.Records.{purging, viewing};
ghost use Rattle.types.specs.declared.Pick.TheVariants.{Earliest, Latest};
ghost use Rattle.tables.specs.Words.{lent, sound_words};
ghost use Rattle.store.specs.Promises.{Shows};
ghost use Rattle.codes.specs.Codes.{Answers, extent_of, finish_of, named};
ghost use Rattle.opened.specs.Opened.{Opened, Opens, Within};

use types::{Handle, Pick, Point};

// Opens a session: the words are checked, and the index is one that knows nothing yet.
// Kept: the C header asks for it: the reply is a number; words and index two arrays.
#[unsafe(no_mangle)]
pub extern "C" fn zohetiwa_open(words: &[u64], index: &mut [u16]) -> u64
    ensures { Answers (Opens words.now index.old index.new) result [] [] }
{
    let reply = opened::open(words, index);
    verdicts::done(reply)
}

// Kept: the C header asks for it: the reply is a number, each value at a pointer; words and index two arrays.
// Kept: Opened; the head of this file says why.
#[unsafe(no_mangle)]
pub extern "C" fn zohetiwa_in_begin(words: &mut [u64], index: &mut [u16], handle: &mut u64) -> u64
    requires { Opened words.old index.old }
    ensures { Answers (Within beginning words.old words.new index.new) result
        (handle.old ∷ [])
        (handle.new ∷ []) }
{
    let reply = opened::begin(words, index);
    telling::begin(reply, handle)
}

// Kept: the C header asks for it: the reply is a number; words and index two arrays.
// Kept: Opened; the head of this file says why.
#[unsafe(no_mangle)]
pub extern "C" fn zohetiwa_in_write(
    words: &mut [u64],
    index: &mut [u16],
    handle: u64,
    rec: u64,
    value: u64,
) -> u64
    requires { Opened words.old index.old }
    ensures { Answers (Within (writing handle rec value)
        words.old words.new index.new) result [] [] }
{
    let reply = opened::write(words, index, Handle::from(handle), rec, value);
    verdicts::done(reply)
}

// Kept: the C header asks for it: reply and flag are numbers, each value at a pointer; words and index two arrays.
// Kept: Opened; the head of this file says why.
#[unsafe(no_mangle)]
pub extern "C" fn zohetiwa_in_lock(
    words: &mut [u64],
    index: &mut [u16],
    handle: u64,
    rec: u64,
    low: u64,
    high: u64,
    part: u64,
    first: &mut u64,
    last: &mut u64,
) -> u64
    requires { Opened words.old index.old }
    ensures { Answers (Within (locking handle rec low high (extent_of part))
        words.old words.new index.new) result
        (first.old ∷ last.old ∷ [])
        (first.new ∷ last.new ∷ []) }
{
    let h = Handle::from(handle);
    let from = Point::from(low);
    let to = Point::from(high);
    let reply = opened::lock(words, index, h, rec, from, to, codes::extent(part));
    telling::lock(reply, first, last)
}

// Kept: the C header asks for it: reply and flag are numbers, each value at a pointer; words and index two arrays.
// Kept: Opened; the head of this file says why.
#[unsafe(no_mangle)]
pub extern "C" fn zohetiwa_in_read(
    words: &mut [u64],
    index: &mut [u16],
    handle: u64,
    rec: u64,
    m: u64,
    part: u64,
    kind: &mut u64,
    tr: &mut u64,
    end: &mut u64,
    written: &mut u64,
    value: &mut u64,
) -> u64
    requires { Opened words.old index.old }
    ensures { Answers (Within (reading handle rec m (extent_of part))
        words.old words.new index.new) result
        (kind.old ∷ tr.old ∷ end.old ∷ written.old ∷ value.old ∷ [])
        (kind.new ∷ tr.new ∷ end.new ∷ written.new ∷ value.new ∷ []) }
{
    let h = Handle::from(handle);
    let upto = Point::from(m);
    let reply = opened::read(words, index, h, rec, upto, codes::extent(part));
    telling::read(reply, kind, tr, end, written, value)
}

// Commit at a choice of the point.
// Kept: it takes C's numbers, words and index, so that `Handle::from` and `codes::finish` are said once for the three
// below.
// Kept: Opened; the head of this file says why.
fn commit(
    words: &mut [u64],
    index: &mut [u16],
    handle: u64,
    pick: Pick,
    keep: u64,
    point: &mut u64,
) -> u64
    requires { Opened words.old index.old }
    ensures { Answers (Within (committing handle pick (finish_of keep))
        words.old words.new index.new) result
        (point.old ∷ [])
        (point.new ∷ []) }
{
    let reply = opened::commit(
        words,
        index,
        Handle::from(handle),
        pick,
        codes::finish(keep),
    );
    telling::commit(reply, point)
}

// Kept: the C header asks for it: reply and flag are numbers, each value at a pointer; words and index two arrays.
// Kept: Opened; the head of this file says why.
#[unsafe(no_mangle)]
pub extern "C" fn zohetiwa_in_commit_earliest(
    words: &mut [u64],
    index: &mut [u16],
    handle: u64,
    keep: u64,
    point: &mut u64,
) -> u64
    requires { Opened words.old index.old }
    ensures { Answers (Within (committing handle Earliest (finish_of keep))
        words.old words.new index.new) result
        (point.old ∷ [])
        (point.new ∷ []) }
{
    commit(words, index, handle, Pick::Earliest, keep, point)
}

// Kept: the C header asks for it: reply and flag are numbers, each value at a pointer; words and index two arrays.
// Kept: Opened; the head of this file says why.
#[unsafe(no_mangle)]
pub extern "C" fn zohetiwa_in_commit_latest(
    words: &mut [u64],
    index: &mut [u16],
    handle: u64,
    keep: u64,
    point: &mut u64,
) -> u64
    requires { Opened words.old index.old }
    ensures { Answers (Within (committing handle Latest (finish_of keep))
        words.old words.new index.new) result
        (point.old ∷ [])
        (point.new ∷ []) }
{
    commit(words, index, handle, Pick::Latest, keep, point)
}

// Kept: the C header asks for it: reply and flag are numbers, each value at a pointer; words and index two arrays.
// Kept: Opened; the head of this file says why.
#[unsafe(no_mangle)]
pub extern "C" fn zohetiwa_in_commit_at(
    words: &mut [u64],
    index: &mut [u16],
    handle: u64,
    at: u64,
    keep: u64,
    point: &mut u64,
) -> u64
    requires { Opened words.old index.old }
    ensures { Answers (Within (committing handle (named at) (finish_of keep))
        words.old words.new index.new) result
        (point.old ∷ [])
        (point.new ∷ []) }
{
    commit(
        words,
        index,
        handle,
        Pick::Named(Point::from(at)),
        keep,
        point,
    )
}

// Kept: the C header asks for it: reply and flag are numbers; words and index two arrays.
// Kept: Opened; the head of this file says why.
#[unsafe(no_mangle)]
pub extern "C" fn zohetiwa_in_abort(
    words: &mut [u64],
    index: &mut [u16],
    handle: u64,
    keep: u64,
) -> u64
    requires { Opened words.old index.old }
    ensures { Answers (Within (aborting handle (finish_of keep))
        words.old words.new index.new) result [] [] }
{
    let reply = opened::abort(words, index, Handle::from(handle), codes::finish(keep));
    verdicts::done(reply)
}

// Kept: the C header asks for it: the reply is a number; words and index two arrays.
// Kept: Opened; the head of this file says why.
#[unsafe(no_mangle)]
pub extern "C" fn zohetiwa_in_settle(words: &mut [u64], index: &mut [u16], handle: u64) -> u64
    requires { Opened words.old index.old }
    ensures { Answers (Within (settling handle)
        words.old words.new index.new) result [] [] }
{
    let reply = opened::settle(words, index, Handle::from(handle));
    verdicts::done(reply)
}

// Kept: the C header asks for it: the reply is a number, each value at a pointer; words and index two arrays.
// Kept: Opened; the head of this file says why.
#[unsafe(no_mangle)]
pub extern "C" fn zohetiwa_in_purge(
    words: &mut [u64],
    index: &mut [u16],
    rec: u64,
    b: u64,
    versions: &mut u64,
    locks: &mut u64,
) -> u64
    requires { Opened words.old index.old }
    ensures { Answers (Within (purging rec b) words.old words.new index.new) result
        (versions.old ∷ locks.old ∷ [])
        (versions.new ∷ locks.new ∷ []) }
{
    let reply = opened::purge(words, index, rec, Point::from(b));
    telling::purge(reply, versions, locks)
}

// Kept: the C header asks for it: the reply is a number, each value at a pointer.
// Kept: sound words; the head of this file says why.
#[unsafe(no_mangle)]
pub extern "C" fn zohetiwa_in_view(
    words: &[u64],
    rec: u64,
    p: u64,
    point: &mut u64,
    written: &mut u64,
    value: &mut u64,
) -> u64
    requires { sound_words (lent words.now) ≡ true }
    ensures { Answers (Shows (viewing rec p) words.now) result
        (point.old ∷ written.old ∷ value.old ∷ [])
        (point.new ∷ written.new ∷ value.new ∷ []) }
{
    let reply = opened::view(words, rec, Point::from(p));
    telling::view(reply, point, written, value)
}
