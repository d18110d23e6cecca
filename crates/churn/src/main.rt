// Fills and frees every table of a small store three thousand times through the public calls, and prints how many calls
// were granted and how many were refused, by the number of the refusal. Every round asks for the same, so each count is
// a multiple of the rounds: a row or a slot that is lost, or refused while one is free, changes the output. Rests on
// the crates `types`, `soundness`, `format` and `store`.
#![tactic(auto)]

use std::io;
use types::{Call, Counts, Extent, Finish, Granted, Handle, Pick, Point, Refusal};

const ROUNDS: u64 = 3000;

// The words of the store 4 3 4 8 8.
const WORDS: usize = 128;

// The counts of what the calls gave, and those of the refusals, by their numbers.
#[derive(Clone, Copy, Default)]
struct Tally {
    begun: u64,
    written: u64,
    locked: u64,
    read: u64,
    committed: u64,
    nopoint: u64,
    aborted: u64,
    settled: u64,
    versions_purged: u64,
    locks_purged: u64,
    refused: [u64; 17],
}

impl Tally {
    // Counts the reply of a call.
    fn count(&mut self, call: Call, reply: Result<Granted, Refusal>) {
        let count = match (call, reply) {
            // Kept: the counts are printed by these numbers; by names each would be a field and two arms more.
            (_, Err(r)) => &mut self.refused[r.number() as usize],
            (_, Ok(Granted::Edit(_))) => &mut self.begun,
            (_, Ok(Granted::Locked(_))) => &mut self.locked,
            (_, Ok(Granted::Read(_))) => &mut self.read,
            (_, Ok(Granted::Commit(Some(_)))) => &mut self.committed,
            (_, Ok(Granted::Commit(None))) => &mut self.nopoint,
            (Call::Write(..), _) => &mut self.written,
            (Call::Abort(..), _) => &mut self.aborted,
            (Call::Settle(_), _) => &mut self.settled,
            (_, Ok(Granted::Purged(f))) => {
                self.versions_purged = self.versions_purged.saturating_add(f.versions);
                self.locks_purged = self.locks_purged.saturating_add(f.locks);
                return;
            }
            _ => return,
        };
        *count = count.saturating_add(1);
    }

    fn print(&self, rt: &impl Print) -> io::Result<()> {
        for (text, n) in [
            ("begun", self.begun),
            ("written", self.written),
            ("locked", self.locked),
            ("read", self.read),
            ("committed", self.committed),
            ("nopoint", self.nopoint),
            ("aborted", self.aborted),
            ("settled", self.settled),
            ("versions purged", self.versions_purged),
            ("locks purged", self.locks_purged),
        ] {
            println!(rt; "{text} {n}")?;
        }
        for (number, n) in self.refused.iter().enumerate() {
            if *n > 0 {
                println!(rt; "no {number} {n}")?;
            }
        }
        Ok(())
    }
}

// A store of 4 records, 3 edits, 4 versions, 8 locks and 8 accesses, what its calls gave, and the point from which the
// next round goes on. Between rounds every slot, lock row and access row is free; of the version rows one is in use,
// since record 0 keeps the version at its floor.
#[derive(Drop)]
struct Churn {
    words: [u64; WORDS],
    tally: Tally,
    point: u64,
}

impl Churn {
    // A call, counted, and what it gave.
    fn call(&mut self, call: Call) -> Option<Granted> {
        let reply = store::perform(&mut self.words, call);
        self.tally.count(call, reply);
        reply.ok()
    }

    fn calls(&mut self, calls: &[Call]) {
        for call in calls {
            self.call(*call);
        }
    }

    fn begin(&mut self) -> Option<Handle> {
        match self.call(Call::Begin)? {
            Granted::Edit(h) => Some(h),
            _ => None,
        }
    }

    // The point k above that of the round.
    fn at(&self, k: u64) -> Point {
        Point::from(self.point.saturating_add(k))
    }

    // Edit a writes 4 records and edit b reads 4, which takes the 8 access rows and 4 of the 8 lock rows. Edit c finds
    // no access row: 4 times 10. What needs no new row is still granted: 3 calls.
    fn fill_accesses(&mut self, a: Handle, b: Handle, c: Handle) {
        let t = self.at(0);
        for rec in 0..4 {
            self.call(Call::Write(a, rec, 7));
        }
        for rec in 0..4 {
            self.call(Call::Read(b, rec, t, Extent::All));
        }
        self.calls(&[
            Call::Write(c, 0, 7),
            Call::Write(c, 3, 7),
            Call::Read(c, 1, t, Extent::All),
            Call::Read(c, 2, t, Extent::All),
            Call::Write(a, 0, 7),
            Call::Read(a, 1, t, Extent::All),
            Call::Read(b, 2, t, Extent::All),
        ]);
    }

    // Five begins: 3 granted, 2 times 13. The accesses; then six locks of a, of which 4 are granted, 2 times 11, and
    // one of c: 11.
    fn fill_slots(&mut self) -> Option<()> {
        let a = self.begin()?;
        let b = self.begin()?;
        let c = self.begin()?;
        self.calls(&[Call::Begin, Call::Begin]);
        self.fill_accesses(a, b, c);
        for k in 1..7 {
            let p = self.at(k);
            self.call(Call::Lock(a, 0, p, p, Extent::All));
        }
        let p = self.at(1);
        self.calls(&[
            Call::Lock(c, 1, p, p, Extent::All),
            Call::Abort(a, Finish::Settle),
            Call::Abort(b, Finish::Keep),
            Call::Settle(b),
            Call::Commit(c, Pick::Earliest, Finish::Keep),
            Call::Settle(c),
        ]);
        Some(())
    }

    // Locks while access rows are free. Ten locks of edit a: 8 granted, 2 times 11. The read of edit b finds an access
    // row but no lock row: 11. Edit a has written a record that it has no lock on: its commit finds no point and frees
    // all that it had.
    fn fill_locks(&mut self) -> Option<()> {
        let a = self.begin()?;
        let b = self.begin()?;
        for k in 0..10 {
            let p = self.at(k);
            self.call(Call::Lock(a, 1, p, p, Extent::All));
        }
        let t = self.at(0);
        self.calls(&[
            Call::Read(b, 2, t, Extent::All),
            Call::Write(b, 2, 7),
            Call::Write(a, 3, 7),
            Call::Commit(a, Pick::Earliest, Finish::Settle),
            Call::Abort(b, Finish::Settle),
        ]);
        Some(())
    }

    // An edit that reads record 0 up to t, writes it and asks to commit at t. Committed, it leaves a version, a settled
    // write lock and a settled read lock, which joins that of the commit before it.
    fn write_at(&mut self, t: Point) -> Option<Handle> {
        let h = self.begin()?;
        self.calls(&[
            Call::Read(h, 0, t, Extent::All),
            Call::Lock(h, 0, t, t, Extent::All),
            Call::Write(h, 0, 7),
            Call::Commit(h, Pick::Named(t), Finish::Settle),
        ]);
        Some(h)
    }

    // An edit that writes two records and asks to commit.
    fn write_two(&mut self, t: Point) -> Option<Handle> {
        let h = self.begin()?;
        self.calls(&[
            Call::Lock(h, 0, t, t, Extent::All),
            Call::Lock(h, 1, t, t, Extent::All),
            Call::Write(h, 0, 7),
            Call::Write(h, 1, 7),
            Call::Commit(h, Pick::Latest, Finish::Settle),
        ]);
        Some(h)
    }

    // Versions: 3 rows are free. Two commits take two; the commit that needs two rows is refused by 12, one that needs
    // one is granted; the next is refused by 12. The purge frees 3 version rows and 4 lock rows: three writes, and one
    // row for the three reads, which adjoin.
    fn fill_versions(&mut self) -> Option<()> {
        let first = self.at(1);
        let second = self.at(2);
        let third = self.at(3);
        let fourth = self.at(4);
        self.write_at(first)?;
        self.write_at(second)?;
        let two = self.write_two(third)?;
        self.calls(&[Call::Abort(two, Finish::Keep), Call::Settle(two)]);
        self.write_at(third)?;
        let last = self.write_at(fourth)?;
        self.calls(&[Call::Abort(last, Finish::Settle), Call::Purge(0, fourth)]);
        Some(())
    }

    // A round of sixteen points, which goes on to its end unless a begin that it needs is refused.
    fn round(&mut self) -> Option<()> {
        self.point = self.point.saturating_add(16);
        self.fill_slots()?;
        self.fill_locks()?;
        self.fill_versions()
    }

    // Runs n rounds, and prints their counts and the verdict.
    fn run(&mut self, rt: &impl Print, n: u64) -> io::Result<()> {
        self.tally = Tally::default();
        for _ in 0..n {
            self.round();
        }
        self.tally.print(rt)?;
        let sound = soundness::check(&self.words);
        // Kept: `generations` says it in these words too; a function of both would be as long as this line.
        println!(rt; "{}", if sound { "sound" } else { "not sound" })
    }
}

fn main(rt: HostRuntime) -> io::Result<()> {
    let mut words = [0u64; WORDS];
    let counts = Counts {
        records: 4,
        edits: 3,
        versions: 4,
        locks: 8,
        accesses: 8,
    };
    match format::format(&mut words, counts) {
        Ok(()) => println!(&rt; "store 4 3 4 8 8")?,
        Err(_) => println!(&rt; "no store")?,
    }
    let mut c = Churn {
        words,
        tally: Tally::default(),
        point: 1,
    };
    let first = Point::from(1);
    c.write_at(first);
    c.call(Call::Purge(0, first));
    println!(&rt; "-- a version at point 1, which becomes the floor")?;
    c.tally.print(&rt)?;
    println!(&rt; "-- one round")?;
    c.run(&rt, 1)?;
    println!(&rt; "-- 3000 rounds")?;
    c.run(&rt, ROUNDS)
}
