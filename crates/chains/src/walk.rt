// Walks along a chain as iterators, in the chain's order: over the numbers of its rows, and over these with a word of
// each row. Rests on lib.rt and placed.rt.
ghost use Rattle.std.specs.Prelude.{◌<◌};

use crate::{Cursor, Placed};

#[derive(Drop)]
pub struct Walk<'a> {
    pub(crate) of: Placed<'a>,
    pub(crate) cursor: Cursor,
}

impl<'a> Iterator for Walk<'a> {
    type Item = usize;

    ghost use Rattle.std.specs.Iterator.{YieldsFirst, item_count};
    ghost use Rattle.chains.specs.Walker.{rows_left};

    ghost next_gives = { YieldsFirst rows_left };

    ghost remaining = { item_count rows_left };

    #[tactic(auto, unfolding(crate::specs::Walker::rows_left))]
    fn next(&mut self) -> Option<usize> {
        self.cursor.along(&self.of)
    }
}

// Each row's number with its word `off`.
#[derive(Drop)]
pub struct Fields<'a> {
    pub(crate) of: Placed<'a>,
    pub(crate) off: usize,
    pub(crate) cursor: Cursor,
    ghost within: { off < of.table.stride },
}

impl<'a> Iterator for Fields<'a> {
    type Item = (usize, usize);

    ghost use Rattle.std.specs.Iterator.{YieldsFirst, item_count};
    ghost use Rattle.chains.specs.Walker.{fields_left};

    ghost next_gives = { YieldsFirst fields_left };

    ghost remaining = { item_count fields_left };

    #[tactic(auto, unfolding(crate::specs::Walker::with_word, crate::specs::Walker::fields_left))]
    fn next(&mut self) -> Option<(usize, usize)> {
        let i = self.cursor.along(&self.of)?;
        Some((i, self.of.word(i, self.off)))
    }
}
