// The store that is damaged, sound and with every table in use, and where its words stand. Rests on the crates `types`
// and `tables`.
use tables::{FREE_VERSION, MODES, Part, Records, Slots};
use types::{Access, COMMITTED, Counts, FREE, Lock, OPEN, READ, Version, WRITE};

// The store 4 4 7 12 8.
pub const WORDS: usize = 164;

pub const COUNTS: Counts = Counts {
    records: 4,
    edits: 4,
    versions: 7,
    locks: 12,
    accesses: 8,
};

// Where word o of a row stands; rows count from 1, and record r is row r + 1.
// Kept: the sum of `chains::at`, which asks that the row lies in the words; here nothing is proved of any row.
pub fn place<P: Part>(row: usize, o: usize) -> usize {
    let t = P::table(COUNTS);
    let before = row.saturating_sub(1).saturating_mul(t.stride);
    t.base.saturating_add(before).saturating_add(o)
}

// Puts words in a row from a place on.
pub fn put(state: &mut [u64; WORDS], at: usize, words: &[u64]) {
    for (word, v) in state.iter_mut().skip(at).zip(words) {
        *word = *v;
    }
}

// The state. Record 0 has versions 12, 7 and 5, which is its floor; record 1 has version 3; record 2 version 4, its
// floor; record 3 none. Edit 1 read record 0 at 7, wrote it and committed at 12; edit 2 read record 1 at 0, wrote
// record 3 and committed at 1; edit 3 is open and has written record 1; slot 4 is free. The lock rows 1 to 5 are on the
// chain of record 0, the rows 6 to 9 on that of record 1, each in rising order of low end. Free are the version rows 6
// and 7, the lock rows 11 and 12, the access rows 6 to 8. The heads of the free chains stand one after another, as do
// the first version, the first lock and the floor of a record.

// Makes the state of words that were laid out. The third word of a lock is its owner times MODES and its mode; a
// settled lock has owner 0.
pub fn put_state(w: &mut [u64; WORDS]) {
    put(w, FREE_VERSION, &[6, 11, 6]);
    put_rows::<Records, 4, 3>(w, &[[1, 1, 5], [4, 6, 0], [5, 0, 4], [0, 10, 0]]);
    put_rows::<Slots, 4, 4>(
        w,
        &[
            [COMMITTED, 1, 1, 12],
            [COMMITTED, 3, 2, 1],
            [OPEN, 0, 5, 0],
            [FREE, 7, 0, 0],
        ],
    );
    put_rows::<Version, 5, 4>(
        w,
        &[
            [12, 42, 0, 2],
            [7, 501, 0, 3],
            [5, 500, 0, 0],
            [3, 7, 0, 0],
            [4, 9, 0, 0],
        ],
    );
    put_rows::<Lock, 10, 5>(
        w,
        &[
            [6, 7, WRITE, 0, 2],
            [6, 7, READ, 0, 3],
            [8, 10, MODES + READ, 0, 4],
            [9, 9, MODES + READ, 0, 5],
            [11, 12, MODES + WRITE, 0, 0],
            [1, 1, 2 * MODES + WRITE, 1, 7],
            [1, 2, 2 * MODES + READ, 1, 8],
            [3, 3, WRITE, 1, 9],
            [20, 30, READ, 1, 0],
            [1, 1, 2 * MODES + WRITE, 3, 0],
        ],
    );
    put_rows::<Access, 5, 5>(
        w,
        &[
            [0, 8, 1, 42, 0],
            [1, 1, 0, 0, 3],
            [0, 0, 0, 0, 4],
            [3, 0, 1, 6, 0],
            [1, 0, 1, 5, 0],
        ],
    );
}

// Puts the first rows of a table, one after another.
fn put_rows<P: Part, const ROWS: usize, const WIDTH: usize>(
    w: &mut [u64; WORDS],
    rows: &[[u64; WIDTH]; ROWS],
) {
    put(w, place::<P>(1, 0), rows.as_flattened());
}
