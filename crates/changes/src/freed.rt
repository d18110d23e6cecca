// The rows of a record that pass a test become free: the loop behind every change that takes rows from a record, except
// two that do more in the same walk: Purge's of locks stores a word of each row, and the join of a settled read widens
// its row. Rests on the crates `types`, `chains`, `updates` and `tables`.
// Kept, words and counts: a struct that holds lent `&mut` words would have each contract say that it keeps them
// Kept, Fits c w and Ready: facts of the words, which a struct over `&mut` words cannot hold while they change
// Kept, r < c.records: no words in it; a struct of counts and number would be made anew at each call, and where a slot
// goes with a record, two would have to be said to have the same counts.
ghost use Rattle.std.specs.Prelude.{◌≡◌, ◌<◌, suc, Bool};
ghost use Rattle.chains.specs.Change.{Ready};
ghost use Rattle.tables.specs.Layout.{Fits};
ghost use Rattle.changes.specs.Freed.{Decides, RowsKept, FreedBy};

use chains::{Cursor, Linked, head_of};
use tables::{Row, Tables};
use types::Counts;
use updates::Pair;

// The rows of record r that pass the test become free, in the order of its chain. Replies how many.
// Kept: a test is asked of a row; `updates::unlink_if` asks one word, has no caller, and stands for its public promise.
// Kept: words and counts, Fits c w and Ready, r < c.records; the head of this file says why.
pub fn free_rows<R: Row, F: Fn(R) -> bool>(w: &mut [u64], c: Counts, r: usize, test: F) -> u64
    requires ready { Fits c w.old × (r < c.records) × Ready (R.table c) (R.heads c) w.old (suc r) 0 }
    requires kept { RowsKept (R.table c) (R.heads c) (R.at c) c w.old }
    requires callable { F.IsAlwaysCallable test }
    requires tested { (p : R → Bool) × Decides (F.post test) p }
    ensures { (p : R → Bool) → Decides (F.post test) p
        → FreedBy (λ i. p (R.at c w.old i)) (R.table c) (R.heads c) w.old w.new (suc r) result }
{
    let t = R::table(c);
    let h = R::heads(c);
    let pair = Pair {
        of: Linked { table: t, heads: h },
        a: r + 1,
        b: 0,
    };
    let mut freed = 0;
    let mut place = 0;
    let mut walk = Cursor::new(t, head_of(w, h, r + 1));
    while let Some(i) = walk.along(&Tables {
        words: w,
        counts: c,
    }
    .part::<R>())
    {
        let row = R::read(
            Tables {
                words: w,
                counts: c,
            },
            i,
        );
        if test(row) {
            updates::unlink(w, pair, place, i);
            freed += 1;
        } else {
            place = i;
        }
    }
    freed
}
