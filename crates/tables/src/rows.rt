// The rows of a chain by value, in order: an iterator over record r's versions or locks, or over slot k's accesses.
// `next` reads a row's words and its link, as a loop along the chain would. Rests on parts.rt and views.rt.
ghost use Rattle.std.specs.Prelude.{◌≡◌, ℕ, List};
ghost use Rattle.chains.specs.Walk.{IsRow};
ghost use Rattle.chains.specs.Table.{Lies, Laid};
ghost use Rattle.chains.specs.declared.Heads.{Heads};
ghost use Rattle.types.specs.declared.Counts.{Counts};
ghost use Rattle.tables.specs.Layout.{version_heads, lock_heads, access_heads, Ranged, Fits};
ghost use Rattle.tables.specs.Rows.{versions_laid, locks_laid, accesses_laid};
ghost use Rattle.tables.specs.Decode.{version_at, lock_at, access_at};

use crate::parts::Part;
use crate::views::Tables;
use crate::{
    A_FROM, A_RECORD, A_VALUE, A_WRITTEN, FREE_ACCESS, HEADER, L_HIGH, L_LOW, L_MODE, MODES,
    RECORD, S_ACCESS, SLOT, V_POINT, V_SPARE, V_VALUE, lock_heads, version_heads,
};
use chains::{Cursor, Heads};
use std::marker::PhantomData;
use types::{Access, Counts, Lock, Pending, Version};

// A kind of row that stands on chains: where their heads lie, and a row by value.
pub trait Row: Part + Copy {
    ghost heads: { Counts → Heads };

    ghost at: { Counts → List ℕ → ℕ → Self };

    // Kept: as `table` of a part.
    fn heads(c: Counts) -> Heads
        requires { Ranged c }
        ensures { result ≡ heads c };

    // Kept: a row is read from words and a number, which no `From` of one value takes. The number comes from a link
    // word, so that a type for it would be made and opened at each row.
    fn read(t: Tables<'_>, i: usize) -> Self
        requires { IsRow (Self.table t.counts).count i }
        ensures { result ≡ at t.entry.counts t.entry.words.now i };

    ghost laid: { (c : Counts) (w : List ℕ) → Fits c w → Laid (Self.table c) (heads c) w };
}

impl Row for Version {
    ghost heads = { version_heads };

    ghost at = { version_at };

    // Kept: rows in lent words, linked by their numbers: there is no heap, and document 01 gives the layout.
    fn heads(c: Counts) -> Heads {
        version_heads(c)
    }

    // Kept: the one reader of a whole row; no derive knows offsets (its counterpart is writes::put_version).
    #[tactic(auto, unfolding(crate::specs::Layout::version_table, crate::specs::Decode::version_at))]
    fn read(t: Tables<'_>, i: usize) -> Version {
        let point = t.word::<Version>(i, V_POINT);
        let value = t.word::<Version>(i, V_VALUE);
        let spare = t.word::<Version>(i, V_SPARE);
        Version {
            point,
            value: Some(value),
            spare,
        }
    }

    ghost laid = { versions_laid };
}

impl Row for Lock {
    ghost heads = { lock_heads };

    ghost at = { lock_at };

    // Kept: rows in lent words, linked by their numbers: there is no heap, and document 01 gives the layout.
    fn heads(c: Counts) -> Heads {
        lock_heads(c)
    }

    // Kept: the one reader of a whole row; no derive knows offsets (its counterpart is writes::put_lock).
    #[tactic(auto, unfolding(crate::specs::Layout::lock_table, crate::specs::Decode::lock_at))]
    fn read(t: Tables<'_>, i: usize) -> Lock {
        let low = t.word::<Lock>(i, L_LOW);
        let high = t.word::<Lock>(i, L_HIGH);
        let tag = t.word::<Lock>(i, L_MODE);
        Lock {
            low,
            high,
            mode: tag % MODES,
            owner: tag / MODES,
        }
    }

    ghost laid = { locks_laid };
}

impl Row for Access {
    ghost heads = { access_heads };

    ghost at = { access_at };

    // Kept: rows in lent words, linked by their numbers: there is no heap, and document 01 gives the layout.
    #[tactic(auto, unfolding(crate::specs::Layout::access_heads, crate::specs::Layout::slot_base))]
    fn heads(c: Counts) -> Heads {
        Heads {
            free: FREE_ACCESS,
            first: HEADER + c.records * RECORD + S_ACCESS,
            step: SLOT,
            owners: c.edits,
        }
    }

    // Kept: the one reader of a whole row; no derive knows offsets (its counterpart is writes::put_access).
    #[tactic(auto, unfolding(crate::specs::Layout::access_table, crate::specs::Decode::access_at))]
    fn read(t: Tables<'_>, i: usize) -> Access {
        let rec = t.word::<Access>(i, A_RECORD);
        let from = t.word::<Access>(i, A_FROM);
        let mark = t.word::<Access>(i, A_WRITTEN);
        let value = t.word::<Access>(i, A_VALUE);
        Access {
            rec,
            from,
            value: if mark == 1 {
                Pending::Written(value)
            } else {
                Pending::Unwritten(value)
            },
        }
    }

    ghost laid = { accesses_laid };
}

// A walk along a chain of such rows.
#[derive(Drop)]
pub struct Rows<'a, R: Row> {
    tables: Tables<'a>,
    cursor: Cursor,
    of: PhantomData<R>,
    ghost lies: { Lies (R.table tables.counts) tables.words.now },
}

impl<'a, R: Row> Iterator for Rows<'a, R> {
    type Item = R;

    ghost use Rattle.std.specs.Iterator.{YieldsFirst, item_count};
    ghost use Rattle.tables.specs.Walked.{values_left};

    ghost next_gives = { YieldsFirst values_left };

    ghost remaining = { item_count values_left };

    #[tactic(auto, unfolding(crate::specs::Walked::values_left))]
    fn next(&mut self) -> Option<R> {
        let t = self.tables;
        let i = self.cursor.along(&t.part::<R>())?;
        Some(R::read(t, i))
    }
}

impl<'a, R: Row> Rows<'a, R> {
    ghost use Rattle.std.specs.Prelude.{map};
    ghost use Rattle.chains.specs.Table.{chain};
    ghost use Rattle.tables.specs.Walked.{values_left};

    pub fn from(t: Tables<'a>, head: usize) -> Rows<'a, R>
        ensures { values_left result
            ≡ map (R.at t.entry.counts t.entry.words.now)
            (chain (R.table t.entry.counts) t.entry.words.now head) }
    {
        Rows {
            tables: t,
            cursor: Cursor::new(R::table(t.counts), head),
            of: PhantomData,
        }
    }
}
