// Many views after one check of the words: a lent list of asks and a lent area for their replies. An ask is a row of
// ASK_WORDS words, a record and a point; its reply a row of VIEW_WORDS words. Rests on the crates `types`, `meaning`,
// `tables`, `encoding` and `view`.
#![tactic(auto)]

ghost use Rattle.std.specs.Prelude.{◌+◌, ◌*◌, ◌≤◌, ◌≡◌, length};
ghost use Rattle.std.proofs.lemmas.List.Edits.{sets};
ghost use Rattle.types.specs.Replies.{of_view};
ghost use Rattle.encoding.specs.Encoding.{row_of};
ghost use Rattle.asks.specs.Views.{ASK_WORDS, VIEW_NUMBERS, VIEW_WORDS, asked_at, Views};

use encoding::put_row;
use types::{Granted, Point, Refusal, Seen};
use view::Chart;

const ASK_WORDS: usize = 2;

const VIEW_WORDS: usize = 4;

// The row of a reply: the first words of the row that `encoding` gives it, which has no number after these.
fn row_of(r: Result<Seen, Refusal>) -> [u64; VIEW_WORDS]
    ensures { result ≡ row_of VIEW_NUMBERS (of_view r) }
{
    let [code, p, mark, bits, _, _] = encoding::row_of(r.map(Granted::At));
    [code, p, mark, bits]
}

// Ask i of the list, and its reply in row i.
// Kept: list and replies are two arrays of the C interface, of which this is passed both.
fn view_step(chart: Chart<'_>, list: &[u64], i: usize, replies: &mut [u64])
    requires { ((i + 1) * ASK_WORDS ≤ length list.now)
        × ((i + 1) * VIEW_WORDS ≤ length replies.old) }
    ensures { replies.new
        ≡ sets replies.old (i * VIEW_WORDS)
        (row_of VIEW_NUMBERS (asked_at chart.entry.words.now list.now i)) }
{
    let [rec, p] = list.as_chunks::<ASK_WORDS>().0[i];
    let reply = chart.at(rec, Point::from(p));
    put_row(replies, i * VIEW_WORDS, row_of(reply));
}

// Answers the asks of the list in their order, until the list ends or the next reply has no room; returns how many.
// Kept: list and replies are two arrays of the C interface.
pub fn views(words: &[u64], list: &[u64], replies: &mut [u64]) -> usize
    ensures { Views words.now list.now replies.old replies.new result }
{
    let chart = Chart::open(words);
    let n = (list.len() / ASK_WORDS).min(replies.len() / VIEW_WORDS);
    for i in 0..n {
        view_step(chart, list, i, replies);
    }
    n
}
