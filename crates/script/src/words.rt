// The words that there are for a store, and how many of them are in use. Rests on the crates `answers` and `replies`.
ghost use Rattle.std.specs.Prelude.{◌≡◌, ◌≤◌, ℕ, List, [], take};
ghost use Rattle.lines.specs.Calls.{parsed};
ghost use Rattle.answers.specs.Script.{Says, said};
ghost use Rattle.script.specs.Run.{WORDS};

use replies::Line;
use std::marker::Model;

// "It lays out at most 8,000 words" (document 01).
const WORDS: usize = 8000;

// Its value is the list of the words in use.
#[derive(Drop)]
pub struct Store {
    words: [u64; WORDS],
    used: usize,
}

impl Model for Store {
    ghost Value = { List ℕ };

    ghost view = { λ s. take s.used s.words };

    ghost invariant = { λ s. s.used ≤ WORDS };
}

impl Store {
    // No store yet.
    pub fn new() -> Self
        ensures { result ≡ [] }
    {
        Store {
            words: [0; WORDS],
            used: 0,
        }
    }

    // What a line prints, and what it leaves.
    pub fn answer(&mut self, line: &[u8]) -> Line
        ensures { Says (said WORDS (parsed line.now)) self.old result self.new }
    {
        let answered = answers::answer(&mut self.words, self.used, line);
        self.used = answered.used;
        answered.line
    }
}
