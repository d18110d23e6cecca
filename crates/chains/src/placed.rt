// A table in lent words: single words, walks along a chain, and questions about one chain, which read only. A walk may
// meet each row of the table once, so that a circular chain ends too; each result is that of a function of the chain's
// rows. Rests on lib.rt and walk.rt.
ghost use Rattle.chains.specs.Table.{Lies};

use crate::order::Order;
use crate::walk::{Fields, Walk};
use crate::{Cursor, Table, at};

// Kept: rows linked by their numbers in the lent words are the form of document 01, and there is no heap
#[derive(Clone, Copy)]
pub struct Placed<'a> {
    pub words: &'a [u64],
    pub table: Table,
    ghost lies: { Lies table words.now },
}

impl<'a> Placed<'a> {
    ghost use Rattle.std.specs.Prelude.{◌≡◌, ◌<◌};
    ghost use Rattle.chains.specs.Lists.{last_or, take_while};
    ghost use Rattle.chains.specs.Walk.{IsRow};
    ghost use Rattle.std.specs.List.{find};
    ghost use Rattle.chains.specs.Table.{chain, field, holds, len_of, link, stands_before};
    ghost use Rattle.chains.specs.Walker.{fields_left, rows_left, with_word};

    // Word o of row i.
    // Kept: an offset is a constant of the layout, and that it is below the width of a row is seen where it is named
    // Kept: a row's number is read from a link word; a struct for it would hold one fact of a number
    pub fn word(&self, i: usize, o: usize) -> usize
        requires { IsRow self.now.table.count i × (o < self.now.table.stride) }
        ensures { result ≡ field self.now.table self.now.words.now i o }
    {
        let k = at(self.table, i, o, self.words.len());
        self.words[k] as usize
    }

    // The row after row i.
    // Kept: the answer is the word of document 01, where 0 ends a chain; it is stored in another link word
    // Kept: as at `word`, the number of a row was read from a link word.
    pub fn link(&self, i: usize) -> usize
        requires { IsRow self.now.table.count i }
        ensures { result ≡ link self.now.table self.now.words.now i }
    {
        self.word(i, self.table.off)
    }

    // The numbers of a chain's rows.
    pub fn rows(&self, head: usize) -> Walk<'a>
        ensures { rows_left result ≡ chain self.now.table self.now.words.now head }
    {
        Walk {
            of: *self,
            cursor: Cursor::new(self.table, head),
        }
    }

    // These with the word o of each row.
    // Kept: an offset is a constant of the layout, and that it is below the width of a row is seen where it is named
    pub fn fields(&self, o: usize, head: usize) -> Fields<'a>
        requires { o < self.now.table.stride }
        ensures { fields_left result ≡ with_word self.now.table self.now.words.now o
            (chain self.now.table self.now.words.now head) }
    {
        Fields {
            of: *self,
            off: o,
            cursor: Cursor::new(self.table, head),
        }
    }

    // The first row of the chain with v in its word o.
    // Kept: an offset is a constant of the layout, and that it is below the width of a row is seen where it is named
    pub fn first_with(&self, o: usize, v: usize, head: usize) -> Option<usize>
        requires { o < self.now.table.stride }
        ensures { result
            ≡ find (holds self.now.table self.now.words.now o v) (chain self.now.table self.now.words.now head) }
    {
        self.fields(o, head).find(|(_, x)| *x == v).map(|(i, _)| i)
    }

    // The number of rows on the chain, if it ends.
    pub fn chain_length(&self, head: usize) -> Option<usize>
        ensures { result ≡ len_of self.now.table self.now.words.now head }
    {
        let mut walk = Cursor::new(self.table, head);
        while let Some(_) = walk.along(self) {}
        if walk.row != 0 {
            return None;
        }
        Some(self.table.count - walk.left)
    }

    // The place after the front of rows whose word o comes before q.
    // Kept: linked rows can only be searched from the start, which is place 0 in the words of document 01
    // Kept: an offset is a constant of the layout, and that it is below the width of a row is seen where it is named
    pub fn find_place<O: Order>(&self, o: usize, q: usize, head: usize) -> usize
        requires { o < self.now.table.stride }
        ensures { result
            ≡ last_or 0 (take_while (stands_before O.precedes self.now.table self.now.words.now o q)
            (chain self.now.table self.now.words.now head)) }
    {
        self.fields(o, head)
            .take_while(|(_, x)| O::precedes(*x, q))
            .fold(0, |_, (i, _)| i)
    }
}
