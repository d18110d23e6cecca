// Makes every public call of the store on sound words, on the same words with record count 5000, with each kind of
// chain run in a circle, and on the empty slice, and prints each reply and whether any word moved. A store
// that is not sound must reply `no 1` and keep every word; on the sound one each call has another reply, so that the
// lines can differ. Rests on `store` and, for the text of calls and replies, on `lines` and `answers`.
#![tactic(auto)]

use answers::answer;
use chains::Table;
use console::Moved;
use fields::Command;
use rendering::line_of_answer;
use std::io;
use tables::Part;
use types::{Access, Call, Counts, Granted, Lock, Refusal, Version};

// The store 2 3 4 8 8.
const WORDS: usize = 122;

const COUNTS: Counts = Counts {
    records: 2,
    edits: 3,
    versions: 4,
    locks: 8,
    accesses: 8,
};

// Where the words of its slot 1 begin.
const SLOT_1: usize = tables::HEADER + 2 * tables::RECORD;

// Makes record 0 have a version at 7 with its settled lock, and slot 3 free; edit 129 in slot 1 has read the record and
// holds 8..9, edit 66 in slot 2 has ended and is not settled.
const STATE: [&str; 9] = [
    "F 2 3 4 8 8",
    "B",
    "L 65 0 7 7 A",
    "W 65 0 501",
    "C 65 E S",
    "B",
    "B",
    "R 129 0 9 A",
    "A 66 K",
];

// Every call, with both flags and every pick.
const CALLS: [&str; 17] = [
    "B",
    "W 129 1 5",
    "L 129 1 4 9 A",
    "L 129 1 4 9 P",
    "R 129 1 6 A",
    "R 129 1 6 P",
    "C 129 E S",
    "C 129 E K",
    "C 129 L S",
    "C 129 L K",
    "C 129 8 S",
    "C 129 8 K",
    "A 129 S",
    "A 129 K",
    "S 66",
    "P 0 7",
    "V 0 8",
];

// The reply of the call's own function, which `perform` gives too.
// Kept: what is shown is that the two agree.
fn direct(words: &mut [u64], call: Call) -> Result<Granted, Refusal> {
    match call {
        Call::Begin => store::begin(words).map(Granted::Edit),
        Call::Write(h, rec, value) => store::write(words, h, rec, value).map(|_| Granted::Done),
        Call::Lock(h, rec, low, high, extent) => {
            store::lock(words, h, rec, low, high, extent).map(Granted::Locked)
        }
        Call::Read(h, rec, m, extent) => store::read(words, h, rec, m, extent).map(Granted::Read),
        Call::Commit(h, pick, finish) => {
            store::commit(words, h, pick, finish).map(Granted::Commit)
        }
        Call::Abort(h, finish) => store::abort(words, h, finish).map(|_| Granted::Done),
        Call::Settle(h) => store::settle(words, h).map(|_| Granted::Done),
        Call::Purge(rec, b) => store::purge(words, rec, b).map(Granted::Purged),
        Call::View(rec, p) => store::view(words, rec, p).map(Granted::At),
    }
}

// A store, or words that are none, and where what its calls do is printed.
// Kept: `desks` and others have one too; on a struct of a library a program's own calls could not be methods.
#[derive(Drop)]
struct Stage<'a, R, const N: usize> {
    rt: &'a R,
    words: [u64; N],
}

impl<'a, R, const N: usize> Stage<'a, R, N> {
    fn new(rt: &'a R, words: [u64; N]) -> Self {
        Stage { rt, words }
    }
}

impl<R: Print, const N: usize> Stage<'_, R, N> {
    // Kept: a line; each program has a Stage of its own, and this is what its title looks like.
    fn title(&self, text: &str) -> io::Result<()> {
        println!(self.rt; "-- {text}")
    }

    // The reply to a call on a copy of the words, and whether one of them moved; the empty slice has none that could.
    fn tell<F: Fn(&mut [u64], Call) -> Result<Granted, Refusal>>(
        &self,
        call: Call,
        made: F,
    ) -> io::Result<()>
        requires { F.IsAlwaysCallable made }
    {
        let mut words = self.words;
        let line = line_of_answer(made(&mut words, call));
        if N == 0 {
            return print!(self.rt; "{line}");
        }
        let moved = Moved {
            before: &self.words,
            after: &words,
        };
        print!(self.rt; "{line}, {moved}")
    }

    // Makes each call, by its own function and by `perform`.
    fn try_calls(&self) -> io::Result<()> {
        for line in CALLS {
            print!(self.rt; "{line}: ")?;
            if let Some(Command::Call(call)) = lines::parse(line.as_bytes()) {
                self.tell(call, direct)?;
                print!(self.rt; "; perform: ")?;
                self.tell(call, store::perform)?;
            }
            println!(self.rt)?;
        }
        Ok(())
    }
}

// Where the link word of a row stands; there is no row 0.
// Kept: `chains` has the rows of a chain for words that are proved to hold the table; of these nothing is proved.
fn link_place(t: Table, row: u64) -> Option<usize> {
    let before = (row as usize).checked_sub(1)?;
    let row_place = before.checked_mul(t.stride)?.checked_add(t.base)?;
    row_place.checked_add(t.off)
}

impl<R: Print> Stage<'_, R, WORDS> {
    // Runs each line, and prints it with its answer.
    // Kept: `desks` and `generations` have the two statements too; one function of three arguments would be as long.
    fn run(&mut self, lines: &[&str]) -> io::Result<()> {
        for line in lines {
            let reply = answer(&mut self.words, WORDS, line.as_bytes()).line;
            println!(self.rt; "{line}: {reply}")?;
        }
        Ok(())
    }

    // The row after a row; 0 ends a chain.
    // Kept: as `link_place`.
    fn further(&self, t: Table, row: u64) -> Option<u64> {
        let next = *self.words.get(link_place(t, row)?)?;
        (next != 0).then_some(next)
    }

    // The words with the chain whose first row stands in word `head` going on from its last row to its first.
    // Kept: as `link_place`.
    fn circle(&self, t: Table, head: usize) -> Option<Self> {
        let first = *self.words.get(head)?;
        let mut last = first;
        // no chain here has more than eight rows
        for _ in 1..8 {
            last = self.further(t, last).unwrap_or(last);
        }
        let mut words = self.words;
        *words.get_mut(link_place(t, last)?)? = first;
        Some(Stage::new(self.rt, words))
    }

    fn try_circles(&self) -> io::Result<()> {
        let versions = Version::table(COUNTS);
        let locks = Lock::table(COUNTS);
        let accesses = Access::table(COUNTS);
        let chains = [
            (
                "the versions of record 0",
                versions,
                tables::HEADER + tables::R_VERSION,
            ),
            (
                "the locks of record 0",
                locks,
                tables::HEADER + tables::R_LOCK,
            ),
            (
                "the accesses of slot 1",
                accesses,
                SLOT_1 + tables::S_ACCESS,
            ),
            ("the free version rows", versions, tables::FREE_VERSION),
            ("the free lock rows", locks, tables::FREE_LOCK),
            ("the free access rows", accesses, tables::FREE_ACCESS),
        ];
        for (text, table, head) in chains {
            println!(self.rt; "-- {text} in a circle")?;
            if let Some(s) = self.circle(table, head) {
                s.try_calls()?;
            }
        }
        Ok(())
    }
}

fn main(rt: HostRuntime) -> io::Result<()> {
    let mut s = Stage::new(&rt, [0u64; WORDS]);
    s.run(&STATE)?;
    s.title("the sound store")?;
    s.try_calls()?;
    s.title("record count 5000")?;
    let mut unsound = Stage::new(&rt, s.words);
    unsound.words[tables::H_RECORDS] = 5000;
    unsound.try_calls()?;
    s.try_circles()?;
    s.title("the empty slice")?;
    Stage::new(&rt, [0u64; 0]).try_calls()
}
