// The tables of a store as values: the lent words with their counts, a record of them and an edit slot of them. Who
// holds one holds its facts too, so that what is over it has no `requires` for them. A writer, which changes the words,
// makes one where it looks. Each method equals a part of the decoded store, on any words with these counts. Rests on
// parts.rt and rows.rt.
ghost use Rattle.std.specs.Prelude.{◌<◌};
ghost use Rattle.chains.specs.Walk.{IsRow};
ghost use Rattle.tables.specs.Layout.{Fits};

use crate::parts::{Part, Records, Slots};
use crate::rows::{Row, Rows};
use crate::{R_FLOOR, S_GENERATION, S_POINT, S_STATE};
use chains::Placed;
use types::{Access, Counts, Lock, Version};

// Words that have these counts, and the length for them.
#[derive(Clone, Copy)]
pub struct Tables<'a> {
    pub words: &'a [u64],
    pub counts: Counts,
    ghost fits: { Fits counts words.now },
}

// Record `number`, from 0.
#[derive(Clone, Copy)]
pub struct Record<'a> {
    pub tables: Tables<'a>,
    pub number: usize,
    ghost there: { number < tables.counts.records },
}

// Edit slot `number`, from 1.
#[derive(Clone, Copy)]
pub struct Slot<'a> {
    pub tables: Tables<'a>,
    pub number: usize,
    ghost there: { IsRow tables.counts.edits number },
}

impl<'a> Tables<'a> {
    ghost use Rattle.std.specs.Prelude.{◌≡◌, ◌≤◌, map};
    ghost use Rattle.chains.specs.Table.{field, head_of, rows_of};
    ghost use Rattle.tables.specs.Walked.{values_left};

    // A part's table in the words.
    // Kept: which part it is stands in no argument, so no `From` can choose it.
    pub fn part<P: Part>(self) -> Placed<'a>
        ensures { result.words.now ≡ self.entry.words.now × (result.table ≡ P.table self.entry.counts) }
    {
        Placed {
            words: self.words,
            table: P::table(self.counts),
        }
    }

    // Word o of row i of a part.
    // Kept: a row's number comes from a link word or a count; an offset is a constant of the layout, and that a row is
    // wider is seen where it is named.
    pub fn word<P: Part>(self, i: usize, o: usize) -> u64
        requires { IsRow (P.table self.counts).count i × (o < (P.table self.counts).stride) }
        ensures { result ≡ field (P.table self.entry.counts) self.entry.words.now i o }
    {
        self.part::<P>().word(i, o) as u64
    }

    // The first row of an owner's chain, or 0.
    // Kept: 0 for an empty chain, as its head word has it and `Cursor::new` takes it: rows are linked by their numbers.
    // Kept: an owner is a record or a slot, or 0 for the free chain; `Record` and `Slot` hold the fact of the two.
    pub fn first<R: Row>(self, owner: usize) -> usize
        requires { owner ≤ (R.heads self.counts).owners }
        ensures { result ≡ head_of (R.heads self.entry.counts) self.entry.words.now owner }
    {
        chains::head_of(self.words, R::heads(self.counts), owner)
    }

    // The rows of an owner's chain, by value, in order.
    // Kept: the owner as at `first`.
    #[tactic(auto, unfolding(chains::specs::Table::rows_of))]
    pub fn rows<R: Row>(self, owner: usize) -> Rows<'a, R>
        requires { owner ≤ (R.heads self.counts).owners }
        ensures { values_left result
            ≡ map (R.at self.entry.counts self.entry.words.now)
            (rows_of (R.table self.entry.counts) (R.heads self.entry.counts)
            self.entry.words.now owner) }
    {
        Rows::from(self, self.first::<R>(owner))
    }
}

impl<'a> Record<'a> {
    ghost use Rattle.std.specs.Prelude.{◌≡◌};
    ghost use Rattle.tables.specs.Walked.{values_left};
    ghost use Rattle.tables.specs.Views.{rec_in};

    pub fn floor(self) -> u64
        ensures { result ≡ (rec_in self.entry).floor }
    {
        self.tables.word::<Records>(self.number + 1, R_FLOOR)
    }

    pub fn versions(self) -> Rows<'a, Version>
        ensures { values_left result ≡ (rec_in self.entry).versions }
    {
        self.tables.rows::<Version>(self.number + 1)
    }

    pub fn locks(self) -> Rows<'a, Lock>
        ensures { values_left result ≡ (rec_in self.entry).locks }
    {
        self.tables.rows::<Lock>(self.number + 1)
    }
}

impl<'a> Slot<'a> {
    ghost use Rattle.std.specs.Prelude.{◌≡◌};
    ghost use Rattle.tables.specs.Walked.{values_left};
    ghost use Rattle.tables.specs.Views.{edit_in};

    // Kept: each field is a line over the generic `word`. A number, since words that nobody checked may have any.
    #[tactic(auto, unfolding(crate::specs::Layout::slot_table, crate::specs::Decode::slot_at))]
    pub fn state(self) -> u64
        ensures { result ≡ (edit_in self.entry).state }
    {
        self.tables.word::<Slots>(self.number, S_STATE)
    }

    // Kept: as `state`, a line over the generic `word`.
    #[tactic(auto, unfolding(crate::specs::Layout::slot_table, crate::specs::Decode::slot_at))]
    pub fn generation(self) -> u64
        ensures { result ≡ (edit_in self.entry).generation }
    {
        self.tables.word::<Slots>(self.number, S_GENERATION)
    }

    // Kept: as `state`, a line over the generic `word`.
    #[tactic(auto, unfolding(crate::specs::Layout::slot_table, crate::specs::Decode::slot_at))]
    pub fn point(self) -> u64
        ensures { result ≡ (edit_in self.entry).point }
    {
        self.tables.word::<Slots>(self.number, S_POINT)
    }

    pub fn accesses(self) -> Rows<'a, Access>
        ensures { values_left result ≡ (edit_in self.entry).accesses }
    {
        self.tables.rows::<Access>(self.number)
    }
}
