// A loop over the accesses of a slot that changes the record of each: Commit's makes versions, Settle's leaves settled
// locks. Rests on the crates `types`, `chains` and `tables`.
// Kept, words and counts: lent to be changed; over a struct of both each would promise, too, that they stay (Rattle's
// docs/BORROWS.md).
// Kept, Well c w: of words before a change; a ghost field would say it of the words after it, which is each promise.
// Kept, IsRow c.edits k: no words in it; a struct of counts and number would be made for each call and opened in it.
// Kept, IsRow c.accesses i: what the walk's step says of the row that it gives, for the one turn with that row.
ghost use Rattle.std.specs.Prelude.{ℕ, List, ◌∷◌, []};
ghost use Rattle.chains.specs.Walk.{IsRow};
ghost use Rattle.types.specs.declared.Access.{Access};
ghost use Rattle.meaning.specs.Store.{Rec, Store, edit_at};
ghost use Rattle.tables.specs.Decode.{access_at, decode_at};
ghost use Rattle.tables.specs.Words.{Well};
ghost use Rattle.changes.specs.Becomes.{Becomes, Beside};
ghost use Rattle.endings.specs.Steps.{changed, along, OneByOne};

use chains::Cursor;
use tables::{Part, Row, Tables};
use types::{Access, Counts};

// What is done for each access, and what it needs of the accesses to come.
pub trait Step: Copy {
    ghost makes: { Self → Access → Rec → Rec };

    ghost need: { Self → List Access → Store → Type 0 };

    // Kept: words and counts, IsRow c.accesses i, Well c w; the head of this file says why.
    fn turn(self, w: &mut [u64], c: Counts, i: usize)
        requires { Well c w.old × IsRow c.accesses i × need self (access_at c w.old i ∷ []) (decode_at c w.old) }
        ensures { Beside c w.old w.new (changed (makes self) (access_at c w.old i) (decode_at c w.old)) };
}

// For each access of slot k, in the order of their chain.
// Kept: words and counts, IsRow c.edits k, Well c w; the head of this file says why.
pub fn each_access<S: Step>(w: &mut [u64], c: Counts, k: usize, step: S)
    requires { Well c w.old × IsRow c.edits k
        × S.need step (edit_at (decode_at c w.old) k).accesses (decode_at c w.old)
        × OneByOne (S.makes step) (S.need step) }
    ensures { Becomes c w.new
        (along (S.makes step) (edit_at (decode_at c w.old) k).accesses (decode_at c w.old)) }
{
    let tables = Tables {
        words: w,
        counts: c,
    };
    let mut walk = Cursor::new(Access::table(c), tables.first::<Access>(k));
    while let Some(i) = walk.along(&Tables {
        words: w,
        counts: c,
    }
    .part::<Access>())
    {
        step.turn(w, c, i);
    }
}
