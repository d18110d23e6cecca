// Formats stores and damages one (`state`): each clause of "A store is sound when" is broken by a change of one word,
// or of those of one lock row and its chain, and the verdict of the check is printed, 1 for sound and 0 for not, with
// what was changed. A damage breaks the clause that its group names and no other; where that cannot be, the comment
// says why. Beside what is refused stands what must pass. Rests on the crates `types`, `tables`, `soundness`, `format`
// and `replies`.
#![tactic(auto)]

mod state;

use replies::line_of_done;
use state::{COUNTS, WORDS, place, put, put_state};
use std::io;
use tables::{
    A_FROM, A_NEXT, A_RECORD, A_VALUE, A_WRITTEN, FREE_ACCESS, FREE_LOCK, FREE_VERSION, H_ACCESSES,
    H_EDITS, H_LOCKS, H_RECORDS, H_VERSIONS, L_HIGH, L_LOW, L_MODE, L_NEXT, L_RECORD, MODES,
    R_FLOOR, R_LOCK, Records, S_GENERATION, S_POINT, S_STATE, Slots, V_NEXT, V_POINT, V_SPARE,
};
use types::{
    Access, Counts, FREE, GENERATIONS, LAST, Lock, MAX_EDITS, MAX_RECORDS, MAX_ROWS, READ, Version,
    WRITE,
};

// Formats the words, and prints the reply and the verdict.
// Kept: a `Stage` for the largest store would be a copy of its 485 KB.
fn lay_out(rt: &impl Print, words: &mut [u64], c: Counts, text: &str) -> io::Result<()> {
    print!(rt; "{} ", line_of_done(format::format(words, c)))?;
    judge(rt, words, text)
}

// The verdict: 1 for sound, 0 for not.
fn judge(rt: &impl Print, words: &[u64], text: &str) -> io::Result<()> {
    println!(rt; "{} {text}", soundness::check(words) as u8)
}

// A store, or words that are none, and where the verdicts are printed.
// Kept: `desks` and others have one too; on a struct of a library a program's own calls could not be methods.
#[derive(Drop)]
struct Stage<'a, R, const N: usize> {
    rt: &'a R,
    words: [u64; N],
}

impl<'a, R, const N: usize> Stage<'a, R, N> {
    fn new(rt: &'a R, words: [u64; N]) -> Self {
        Stage { rt, words }
    }
}

impl<R: Print, const N: usize> Stage<'_, R, N> {
    fn lay_out(&mut self, c: Counts, text: &str) -> io::Result<()> {
        lay_out(self.rt, &mut self.words, c, text)
    }

    fn judge(&self, text: &str) -> io::Result<()> {
        judge(self.rt, &self.words, text)
    }
}

impl<R: Print> Stage<'_, R, WORDS> {
    // The same with words put at a place.
    fn with(&self, at: usize, words: &[u64]) -> Self {
        let mut w = self.words;
        put(&mut w, at, words);
        Stage::new(self.rt, w)
    }

    // The verdicts on the state with each word damaged alone: its place, what is put there, and what that breaks.
    fn damage(&self, damages: &[(usize, u64, &str)]) -> io::Result<()> {
        for (i, v, text) in damages {
            self.with(*i, &[*v]).judge(text)?;
        }
        Ok(())
    }

    // "its length fits its counts, and they are in range". A changed count breaks the first, so that the words have no
    // parts of which the other clauses could speak. The second is never broken alone by one word: the sum of the counts
    // changes too.
    fn damage_header(&self) -> io::Result<()> {
        self.damage(&[
            (H_RECORDS, 3, "record count 3"),
            (H_EDITS, 3, "edit count 3"),
            (H_VERSIONS, 8, "version count 8"),
            (H_LOCKS, 11, "lock count 11"),
            (H_ACCESSES, 7, "access count 7"),
            (H_RECORDS, 5000, "record count 5000"),
            (H_EDITS, 0, "edit count 0"),
            (H_VERSIONS, 4096, "version count 4096"),
            (H_LOCKS, 18446744073709551615, "lock count 2^64 - 1"),
            (H_ACCESSES, 0, "access count 0"),
        ])
    }

    // "every row is on exactly one chain": broken on the free chains, which no other clause looks at.
    fn damage_chains(&self) -> io::Result<()> {
        self.damage(&[
            (
                place::<Version>(7, V_NEXT),
                6,
                "the free versions in a circle",
            ),
            (
                place::<Version>(7, V_NEXT),
                8,
                "a version link past the table",
            ),
            (
                place::<Version>(7, V_NEXT),
                1,
                "a version row on two chains",
            ),
            (FREE_VERSION, 7, "a version row on no chain"),
            (place::<Lock>(12, L_NEXT), 11, "the free locks in a circle"),
            (place::<Lock>(12, L_NEXT), 13, "a lock link past the table"),
            (place::<Lock>(12, L_NEXT), 10, "a lock row on two chains"),
            (FREE_LOCK, 12, "a lock row on no chain"),
            (
                place::<Access>(8, A_NEXT),
                8,
                "the free accesses in a circle",
            ),
            (
                place::<Access>(8, A_NEXT),
                9,
                "an access link past the table",
            ),
            (place::<Access>(8, A_NEXT), 5, "an access row on two chains"),
            (FREE_ACCESS, 0, "access rows on no chain"),
        ])
    }

    // The same on the chains of records and edits, where clauses on their rows are broken too.
    fn damage_used_chains(&self) -> io::Result<()> {
        self.damage(&[
            (
                place::<Version>(3, V_NEXT),
                1,
                "the versions of record 0 in a circle",
            ),
            (
                place::<Version>(4, V_NEXT),
                2,
                "versions on the chains of two records",
            ),
            (
                place::<Lock>(5, L_NEXT),
                1,
                "the locks of record 0 in a circle",
            ),
            (
                place::<Access>(4, A_NEXT),
                2,
                "the accesses of edit 2 in a circle",
            ),
        ])
    }

    // "lock rows name their chain's record"; "states, generations, commit points, written marks and modes are among
    // those listed".
    fn damage_marks(&self) -> io::Result<()> {
        self.damage(&[
            (
                place::<Lock>(1, L_RECORD),
                1,
                "a lock row that names another record",
            ),
            (place::<Slots>(3, S_STATE), 4, "a state of 4"),
            (
                place::<Slots>(3, S_GENERATION),
                GENERATIONS,
                "a generation of 65536",
            ),
            (
                place::<Slots>(3, S_POINT),
                3,
                "a commit point of an open edit",
            ),
            (
                place::<Slots>(4, S_POINT),
                3,
                "a commit point of a free slot",
            ),
            (place::<Access>(5, A_WRITTEN), 2, "a written mark of 2"),
            (place::<Lock>(9, L_MODE), 3, "a mode of 3"),
            (place::<Lock>(9, L_MODE), 0, "a mode of 0"),
        ])
    }

    // "a version chain falls strictly in point"; ".. ends at the floor if that is above 0"; "while no row has point 0".
    fn damage_versions(&self) -> io::Result<()> {
        self.damage(&[
            (
                place::<Version>(1, V_POINT),
                7,
                "versions that do not fall strictly",
            ),
            (
                place::<Version>(3, V_POINT),
                6,
                "versions that do not end at the floor",
            ),
            (place::<Version>(4, V_POINT), 0, "a version with point 0"),
        ])
    }

    // ".. lies in floor..LAST": no change of one word breaks it alone. A chain that falls strictly and ends at the
    // floor has no version below it. A version above LAST and above the floor has no lock that lies as locks must; the
    // last damage changes the floor with it, two words, and breaks this clause alone.
    fn damage_range(&self) -> io::Result<()> {
        self.damage(&[
            (place::<Version>(3, V_POINT), 4, "a version below the floor"),
            (
                place::<Records>(3, R_FLOOR),
                6,
                "a floor above the versions",
            ),
            (
                place::<Version>(4, V_POINT),
                LAST + 1,
                "a version above LAST",
            ),
        ])?;
        self.with(place::<Records>(3, R_FLOOR), &[LAST + 1])
            .damage(&[(
                place::<Version>(5, V_POINT),
                LAST + 1,
                "a version and its floor above LAST",
            )])
    }

    // "locks lie in floor + 1..LAST with low ≤ high"; "owners are 0 or slots in use"; "no write lock shares a point
    // with a lock of another owner".
    fn damage_locks(&self) -> io::Result<()> {
        self.damage(&[
            (place::<Lock>(1, L_LOW), 5, "a lock at the floor"),
            (place::<Lock>(2, L_HIGH), 5, "a lock with low above high"),
            (place::<Lock>(9, L_HIGH), LAST + 1, "a lock above LAST"),
            (
                place::<Lock>(9, L_MODE),
                4 * MODES + READ,
                "an owner that is a free slot",
            ),
            (
                place::<Lock>(9, L_MODE),
                5 * MODES + READ,
                "an owner slot that there is not",
            ),
            (
                place::<Lock>(7, L_HIGH),
                3,
                "a write lock that shares a point with another owner",
            ),
        ])
    }

    // Two neighbours of a lock chain swapped: the word at leads to row i, i to row j, and j to the row next.
    fn swapped(&self, at: usize, i: usize, j: usize, next: u64) -> Self {
        self.with(at, &[j as u64])
            .with(place::<Lock>(j, L_NEXT), &[i as u64])
            .with(place::<Lock>(i, L_NEXT), &[next])
    }

    // "in rising order of low point, equal low points in any order".
    fn damage_order(&self) -> io::Result<()> {
        self.damage(&[(
            place::<Lock>(1, L_LOW),
            7,
            "a lock that starts before the one before it",
        )])?;
        for (at, i, j, next, text) in [
            (
                place::<Records>(1, R_LOCK),
                1,
                2,
                3,
                "two locks with equal low ends, swapped",
            ),
            (
                place::<Lock>(1, L_NEXT),
                2,
                3,
                4,
                "two locks with other low ends, swapped",
            ),
            (
                place::<Lock>(3, L_NEXT),
                4,
                5,
                0,
                "the last two locks of a record, swapped",
            ),
        ] {
            self.swapped(at, i, j, next).judge(text)?;
        }
        Ok(())
    }

    // Row 11 as the last lock of record 1, after the settled read lock 20..30.
    fn with_last(&self, row: &[u64; 5]) -> Self {
        self.with(FREE_LOCK, &[12])
            .with(place::<Lock>(9, L_NEXT), &[11])
            .with(place::<Lock>(11, 0), row)
    }

    // "settled read rows that overlap or adjoin are one row".
    fn damage_joined(&self) -> io::Result<()> {
        for (row, text) in [
            (
                [30, 40, READ, 1, 0],
                "settled read locks that share a point",
            ),
            ([22, 28, READ, 1, 0], "a settled read lock inside another"),
            ([31, 40, READ, 1, 0], "settled read locks that adjoin"),
            (
                [32, 40, READ, 1, 0],
                "settled read locks with one point between them",
            ),
            (
                [20, 30, WRITE, 1, 0],
                "a settled write lock on the points of a settled read lock",
            ),
            (
                [31, 40, WRITE, 1, 0],
                "a settled write lock that adjoins a settled read lock",
            ),
            (
                [20, 40, 3 * MODES + READ, 1, 0],
                "a read lock of an edit over a settled read lock",
            ),
        ] {
            self.with_last(&row).judge(text)?;
        }
        Ok(())
    }

    // "each version above the floor has a write lock on its point, settled or of an edit that wrote the record and
    // committed at that point".
    fn damage_backing(&self) -> io::Result<()> {
        self.damage(&[
            (
                place::<Lock>(8, L_MODE),
                READ,
                "a version under a read lock",
            ),
            (place::<Version>(4, V_POINT), 4, "a version off its lock"),
            (
                place::<Access>(1, A_WRITTEN),
                0,
                "a version whose edit did not write the record",
            ),
            (
                place::<Slots>(1, S_POINT),
                11,
                "a version whose edit committed elsewhere",
            ),
            (
                place::<Lock>(8, L_MODE),
                3 * MODES + WRITE,
                "a version whose edit is open",
            ),
        ])
    }

    // "an edit names an existing record at most once"; "a point read is a present version, or 0 under floor 0" (a read
    // at 0 above floor 0 breaks another clause too: its lock would start at or below the floor); "and the edit has a
    // read lock starting just after it".
    fn damage_accesses(&self) -> io::Result<()> {
        self.damage(&[
            (
                place::<Access>(3, A_RECORD),
                4,
                "an access of a record that there is not",
            ),
            (
                place::<Access>(3, A_RECORD),
                1,
                "an edit that names a record twice",
            ),
            (
                place::<Access>(1, A_FROM),
                9,
                "a point read that is no version",
            ),
            (place::<Access>(5, A_FROM), 1, "a read without a lock"),
            (
                place::<Lock>(7, L_MODE),
                2 * MODES + WRITE,
                "a read whose lock is a write lock",
            ),
            (place::<Lock>(7, L_LOW), 2, "a read whose lock starts later"),
        ])
    }

    // "a committed edit's point is in its common set"; "free slots have no accesses".
    fn damage_ends(&self) -> io::Result<()> {
        self.damage(&[
            (
                place::<Slots>(2, S_POINT),
                2,
                "a commit point outside the write locks",
            ),
            (
                place::<Lock>(10, L_MODE),
                2 * MODES + READ,
                "a commit point under a read lock only",
            ),
            (
                place::<Lock>(3, L_HIGH),
                9,
                "a commit point past a gap in the own locks",
            ),
            (place::<Slots>(2, S_POINT), 0, "a commit point of 0"),
            (
                place::<Slots>(3, S_STATE),
                FREE,
                "a free slot with accesses",
            ),
        ])
    }

    // What the clauses do not judge.
    fn damage_nothing(&self) -> io::Result<()> {
        self.damage(&[
            (place::<Access>(7, A_FROM), 77, "words of a free row"),
            (place::<Version>(1, V_SPARE), 9, "a third word of a version"),
            (
                place::<Access>(2, A_VALUE),
                5,
                "a value of an unwritten access",
            ),
            (
                place::<Slots>(4, S_GENERATION),
                GENERATIONS - 1,
                "a generation of 65535",
            ),
            (
                place::<Lock>(9, L_LOW),
                3,
                "a settled lock that shares a point with a settled write lock",
            ),
        ])
    }
}

// The lengths 118 and 60,662 are document 01's own numbers, so that Format is tried against them.
fn format_stores(rt: &impl Print) -> io::Result<()> {
    let mut small = Stage::new(rt, [7u64; 118]);
    let c = Counts {
        records: 2,
        edits: 2,
        versions: 4,
        locks: 8,
        accesses: 8,
    };
    small.lay_out(c, "store 2 2 4 8 8")?;
    small.lay_out(
        Counts { records: 0, ..c },
        "store 0 2 4 8 8 is refused and changes nothing",
    )?;
    small.lay_out(
        Counts { accesses: 7, ..c },
        "store 2 2 4 8 7 has another length",
    )?;
    let most = Counts {
        records: MAX_RECORDS,
        edits: MAX_EDITS,
        versions: MAX_ROWS,
        locks: MAX_ROWS,
        accesses: MAX_ROWS,
    };
    lay_out(rt, &mut [7u64; 60662], most, "the largest store")
}

fn main(rt: HostRuntime) -> io::Result<()> {
    format_stores(&rt)?;
    // slices without a whole header
    Stage::new(&rt, [0u64; 0]).judge("no word")?;
    Stage::new(&rt, [1u64; 7]).judge("seven words")?;
    let mut s = Stage::new(&rt, [7u64; WORDS]);
    s.lay_out(COUNTS, "store 4 4 7 12 8")?;
    put_state(&mut s.words);
    s.judge("the state as it is")?;
    s.damage_header()?;
    s.damage_chains()?;
    s.damage_used_chains()?;
    s.damage_marks()?;
    s.damage_versions()?;
    s.damage_range()?;
    s.damage_locks()?;
    s.damage_order()?;
    s.damage_joined()?;
    s.damage_backing()?;
    s.damage_accesses()?;
    s.damage_ends()?;
    s.damage_nothing()
}
