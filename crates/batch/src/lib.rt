// Many calls after one check of the words: a lent list of calls as rows of words, and a lent area for their replies.
// The public function has no `requires`. Each call leaves the words as sound as they were, so that one check serves
// all. Rests on the crates `types`, `meaning`, `tables`, `format`, `history`, `index`, `calls`, `store`, `encoding` and
// `opened`.
#![tactic(auto)]

ghost use Rattle.std.specs.Prelude.{◌+◌, ◌*◌, ◌≤◌, ◌≡◌, length};
ghost use Rattle.types.specs.Replies.{of_answer};
ghost use Rattle.meaning.specs.Calls.{act};
ghost use Rattle.tables.specs.Words.{lent, decode};
ghost use Rattle.index.specs.Index.{Indexed};
ghost use Rattle.encoding.specs.Encoding.{CALL_WORDS, REPLY_WORDS};
ghost use Rattle.store.specs.Promises.{Does, sound_or_refused};
ghost use Rattle.batch.specs.Runs.{Steps, Runs, fitting};

use encoding::{CALL_WORDS, REPLY_WORDS, call_at, put_row, row_of};
use index::{INDEX, UNKNOWN};
use opened::perform;
use types::{Call, Granted, Refusal};

// The call on words by the check's verdict on them.
// Kept: words and index are lent to be changed; over a struct of both each contract would promise that they stay
// (Rattle's docs/BORROWS.md).
fn answer(
    words: &mut [u64],
    checked: Result<(), Refusal>,
    call: Call,
    ix: &mut [u16],
) -> Result<Granted, Refusal>
    requires { (checked ≡ sound_or_refused words.old) × Indexed (decode (lent words.old)) ix.old }
    ensures { Does (act call) words.old words.new (of_answer result)
        × Indexed (decode (lent words.new)) ix.new }
{
    checked?;
    perform(words, ix, call)
}

// Call i of the list, and its reply in row i.
// Kept: as `answer`; list and replies are two arrays of the C interface, of which this is passed both.
fn step(
    words: &mut [u64],
    checked: Result<(), Refusal>,
    list: &[u64],
    i: usize,
    replies: &mut [u64],
    ix: &mut [u16],
)
    requires { (checked ≡ sound_or_refused words.old)
        × ((i + 1) * CALL_WORDS ≤ length list.now)
        × ((i + 1) * REPLY_WORDS ≤ length replies.old)
        × Indexed (decode (lent words.old)) ix.old }
    ensures { Steps list.now i
        words.old words.new
        replies.old replies.new
        × Indexed (decode (lent words.new)) ix.new }
{
    let reply = answer(words, checked, call_at(list, i), ix);
    put_row(replies, i * REPLY_WORDS, row_of(reply));
}

// How many calls of the list have room for their reply.
// Kept: list and replies are two arrays of the C interface.
fn fitting(list: &[u64], replies: &[u64]) -> usize
    ensures { result ≡ fitting list.now replies.now }
{
    (list.len() / CALL_WORDS).min(replies.len() / REPLY_WORDS)
}

// The calls of the list with an index, and their replies.
// Kept: as `step`; a loop shared with `asks` takes an FnMut, of which each caller would state what a turn leaves.
fn steps(words: &mut [u64], list: &[u64], replies: &mut [u64], ix: &mut [u16]) -> usize
    requires { Indexed (decode (lent words.old)) ix.old }
    ensures { Runs list.now
        words.old words.new
        replies.old replies.new result }
{
    let checked = store::check(words);
    let n = fitting(list, replies);
    for i in 0..n {
        step(words, checked, list, i, replies, ix);
    }
    n
}

// Where fewer calls are to be done there is no index: to fill it takes as long as some calls.
const FEW: usize = 16;

// Does the calls of the list in their order, until the list ends or the next reply has no room; returns how many.
// Kept: list and replies are two arrays of the C interface.
pub fn run(words: &mut [u64], list: &[u64], replies: &mut [u64]) -> usize
    ensures { Runs list.now
        words.old words.new
        replies.old replies.new result }
{
    if fitting(list, replies) < FEW {
        return steps(words, list, replies, &mut [UNKNOWN; 1]);
    }
    steps(words, list, replies, &mut [UNKNOWN; INDEX])
}
