// The chart reader: a struct that holds the lent store and answers from it. It is made once, with the one check of the
// words, and asked many times; an ask costs one record's version chain. Nobody can make a reader whose verdict is not
// the check's. Rests on the crates `types`, `meaning`, `tables`, `history`, `calls` and `store`.
#![tactic(auto)]

ghost use Rattle.std.specs.Prelude.{◌≡◌};
ghost use Rattle.types.specs.Replies.{of_view};
ghost use Rattle.store.specs.Promises.{sound_or_refused};
ghost use Rattle.view.specs.Seen.{Viewed};

use types::{Point, Refusal, Seen};

// A reader of a lent store, and the check's verdict on its words.
#[derive(Clone, Copy)]
pub struct Chart<'a> {
    words: &'a [u64],
    checked: Result<(), Refusal>,
    ghost verdict: { checked ≡ sound_or_refused words.now },
}

impl<'a> Chart<'a> {
    // A reader of these words.
    pub fn open(words: &'a [u64]) -> Chart<'a>
        ensures { result.words ≡ words.entry }
    {
        Chart {
            words,
            checked: store::check(words),
        }
    }

    // The record's newest value at or below the point: the call View of the reader's words.
    pub fn at(self, rec: u64, p: Point) -> Result<Seen, Refusal>
        ensures { Viewed rec p.0 self.entry.words.now (of_view result) }
    {
        self.checked?;
        calls::view(self.words, rec, p)
    }
}

// One ask of a reader made for it: the call View of every slice.
pub fn view(words: &[u64], rec: u64, p: Point) -> Result<Seen, Refusal>
    ensures { Viewed rec p.0 words.now (of_view result) }
{
    Chart::open(words).at(rec, p)
}

// Two asks of one reader: the words are checked once.
pub fn view_pair(
    words: &[u64],
    rec: u64,
    p: Point,
    other: u64,
    o: Point,
) -> (Result<Seen, Refusal>, Result<Seen, Refusal>)
    ensures { Viewed rec p.0 words.now (of_view result.0)
        × Viewed other o.0 words.now (of_view result.1) }
{
    let chart = Chart::open(words);
    (chart.at(rec, p), chart.at(other, o))
}
