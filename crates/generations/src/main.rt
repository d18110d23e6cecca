// Starts from a sound store whose slot 1 has generation 65,535 and an open edit, and shows the wrap: after 65,535 comes
// 0. Every call that takes a handle refuses one of another generation with 2, and after 65,536 begins in the slot the
// stale handle is good again. Rests on `store`, and on `answers` for the text of calls and replies.
#![tactic(auto)]

use answers::answer;
use std::io;
use types::Finish;

// The store 2 2 4 8 8.
const WORDS: usize = 118;

// Where the words of its slot 1 begin.
const SLOT_1: usize = tables::HEADER + 2 * tables::RECORD;

// Every call that takes a handle, with 4194241 = 65,535 * 64 + 1.
const OLD: [&str; 11] = [
    "W 4194241 1 5",
    "L 4194241 1 4 9 A",
    "L 4194241 1 4 9 P",
    "R 4194241 1 6 A",
    "R 4194241 1 6 P",
    "C 4194241 E S",
    "C 4194241 L K",
    "C 4194241 5 S",
    "A 4194241 S",
    "A 4194241 K",
    "S 4194241",
];

// The same with 1 = 0 * 64 + 1.
const NEW: [&str; 11] = [
    "W 1 1 5",
    "L 1 1 4 9 A",
    "L 1 1 4 9 P",
    "R 1 1 6 A",
    "R 1 1 6 P",
    "C 1 E S",
    "C 1 L K",
    "C 1 5 S",
    "A 1 S",
    "A 1 K",
    "S 1",
];

// A store, and where what its calls do is printed.
// Kept: `desks` and others have one too; on a struct of a library a program's own calls could not be methods.
#[derive(Drop)]
struct Stage<'a, R> {
    rt: &'a R,
    words: [u64; WORDS],
}

impl<R: Print> Stage<'_, R> {
    // Kept: a line; each program has a Stage of its own, and this is what its title looks like.
    fn title(&self, text: &str) -> io::Result<()> {
        println!(self.rt; "-- {text}")
    }

    // Runs each line, and prints it with its answer.
    // Kept: `desks` and `refusals` have the two statements too; one function of three arguments would be as long.
    fn run(&mut self, lines: &[&str]) -> io::Result<()> {
        for line in lines {
            let reply = answer(&mut self.words, WORDS, line.as_bytes()).line;
            println!(self.rt; "{line}: {reply}")?;
        }
        Ok(())
    }

    // Kept: `churn` says it in these words too; a function of both would be as long as this one.
    fn verdict(&self) -> &'static str {
        if soundness::check(&self.words) {
            "sound"
        } else {
            "not sound"
        }
    }

    // The last edit of generation 65,535: it works, ends, and its handle is stale, in the free slot and after the next
    // begin.
    fn wrap(&mut self) -> io::Result<()> {
        self.title("the edit of generation 65535")?;
        self.run(&[
            "R 4194241 0 6 A",
            "W 4194241 0 501",
            "L 4194241 0 6 6 A",
            "C 4194241 6 S",
        ])?;
        self.title("its slot is free")?;
        self.run(&OLD)?;
        self.title("the next edit has generation 0")?;
        self.run(&["B", "B"])?;
        self.run(&OLD)?;
        self.title("other generations and slots")?;
        self.run(&[
            "W 65 1 5",
            "W 129 1 5",
            "W 2 1 5",
            "W 0 1 5",
            "W 3 1 5",
            "W 64 1 5",
        ])?;
        self.title("a generation of 65536 is not 0")?;
        self.run(&["W 4194305 1 5"])
    }

    // The edit of generation 0 works, ends, and is stale in its turn.
    fn follow(&mut self) -> io::Result<()> {
        self.title("the edit of generation 0")?;
        self.run(&[
            "R 1 0 9 A",
            "W 1 1 502",
            "L 1 1 7 7 A",
            "S 1",
            "C 1 L K",
            "W 1 1 503",
            "S 1",
        ])?;
        self.title("the next has generation 1")?;
        self.run(&["B"])?;
        self.run(&NEW)?;
        self.run(&["A 65 S"])
    }

    // Begins an edit in the lowest free slot, slot 1, and aborts it, n times.
    fn turns(&mut self, n: u64) {
        for _ in 0..n {
            if let Ok(h) = store::begin(&mut self.words) {
                let _ = store::abort(&mut self.words, h, Finish::Settle);
            }
        }
    }
}

fn main(rt: HostRuntime) -> io::Result<()> {
    let mut s = Stage {
        rt: &rt,
        words: [0u64; WORDS],
    };
    s.run(&["F 2 2 4 8 8"])?;
    s.words[SLOT_1 + tables::S_STATE] = types::OPEN;
    s.words[SLOT_1 + tables::S_GENERATION] = types::GENERATIONS - 1;
    println!(&rt; "slot 1 open with generation 65535: {}", s.verdict())?;
    s.wrap()?;
    s.follow()?;
    s.title("65534 begins later the next edit has generation 0 again")?;
    s.turns(65534);
    s.run(&["W 1 1 5", "B", "W 1 1 5", "A 1 S"])?;
    println!(&rt; "{}", s.verdict())
}
