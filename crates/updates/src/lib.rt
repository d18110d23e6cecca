// Mutators of chains: each changes two chains, a and b, by three stores or by several turns of them. For callers who
// prove where the table lies and that every row is on exactly one chain (`Ready`). Rests on the crate `chains`.
// Kept, Ready p.of: a fact of the words, which a struct over `&mut` words cannot hold while they change
// Kept, place and row: where a row stands is a fact of those words; of its number alone a struct would hold little
// Kept, o < stride: an offset is a constant of the layout, and that a row is wider is seen where it is named
#![tactic(auto)]

ghost use Rattle.std.specs.Prelude.{◌≡◌, ◌<◌, ◌≤◌};
ghost use Rattle.chains.specs.Walk.{IsRow};
ghost use Rattle.chains.specs.Table.{head_of, holds};
ghost use Rattle.chains.specs.Change.{Ready, Place, Follows, relinked, Moved, Taken, Inserted, InsertedSorted};
ghost use Rattle.chains.specs.Change.{Unlinked, UnlinkedBy, Emptied};

use chains::{Cursor, Linked, Order, Placed, head_of, next_after, put, set_after, set_head};

// Two chains of a table, between which a change passes rows.
// Kept: rows linked by their numbers in the lent `&mut` words are the form of document 01, and there is no heap
#[derive(Clone, Copy)]
pub struct Pair {
    pub of: Linked,
    pub a: usize,
    pub b: usize,
}

// The three stores of every change: x follows a place of chain a, y follows row r, z is chain b's head.
// Kept: rows linked by their numbers in the lent `&mut` words are the form of document 01, and there is no heap
// Kept: Ready p.of, place and row; the head of this file says why.
fn relink(w: &mut [u64], p: Pair, place: usize, r: usize, x: usize, y: usize, z: usize)
    requires { Ready p.of.table p.of.heads w.old p.a p.b × IsRow p.of.table.count r × (place ≤ p.of.table.count) }
    ensures { w.new ≡ relinked p.of.table p.of.heads w.old p.a p.b place r x y z }
{
    set_after(w, p.of, p.a, place, x);
    put(w, p.of.table, r, p.of.table.off, y);
    set_head(w, p.of.heads, p.b, z);
}

// Row r, which stands after a place of chain a, becomes the first of chain b.
// Kept: rows linked by their numbers in the lent `&mut` words are the form of document 01, and there is no heap
// Kept: Ready p.of, place and row; the head of this file says why.
pub fn unlink(w: &mut [u64], p: Pair, place: usize, r: usize)
    requires { Ready p.of.table p.of.heads w.old p.a p.b × Follows p.of.table p.of.heads w.old p.a place r }
    ensures { Unlinked p.of.table p.of.heads w.old w.new p.a p.b place r }
{
    let next = Placed {
        words: w,
        table: p.of.table,
    }
    .link(r);
    let head = head_of(w, p.of.heads, p.b);
    relink(w, p, place, r, next, head, r);
}

// Row r, the first of chain b, comes to stand after a place of chain a.
// Kept: rows linked by their numbers in the lent `&mut` words are the form of document 01, and there is no heap
// Kept: Ready p.of, place and row; the head of this file says why.
pub fn insert_after(w: &mut [u64], p: Pair, place: usize, r: usize)
    requires { Ready p.of.table p.of.heads w.old p.a p.b × Place p.of.table p.of.heads w.old p.a place
        × (r ≡ head_of p.of.heads w.old p.b) × (r ≡ 0 → ⊥) }
    ensures { Inserted p.of.table p.of.heads w.old w.new p.a p.b place r }
{
    let head = Placed {
        words: w,
        table: p.of.table,
    }
    .link(r);
    let next = next_after(w, p.of, p.a, place);
    relink(w, p, place, r, r, next, head);
}

// The first row of chain a becomes the first of chain b. Replies the row; none where chain a is empty.
// Kept: rows linked by their numbers in the lent `&mut` words are the form of document 01, and there is no heap
// Kept: Ready p.of; the head of this file says why.
pub fn move_first(w: &mut [u64], p: Pair) -> Option<usize>
    requires { Ready p.of.table p.of.heads w.old p.a p.b }
    ensures { Taken p.of.heads w.old w.new p.a result (Moved p.of.table p.of.heads w.old w.new p.a p.b) }
{
    let r = head_of(w, p.of.heads, p.a);
    if r == 0 {
        return None;
    }
    unlink(w, p, 0, r);
    Some(r)
}

// The first row of chain b comes to stand on chain a after the front of rows whose word o comes before q. Replies the
// row; none where chain b is empty.
// Kept: rows linked by their numbers in the lent `&mut` words are the form of document 01, and there is no heap
// Kept: the rows are linked, so the place in a sorted chain can only be walked to; the order is the generic `Order`.
// Kept: Ready p.of, o < stride; the head of this file says why.
pub fn insert_sorted<O: Order>(w: &mut [u64], p: Pair, o: usize, q: usize) -> Option<usize>
    requires { Ready p.of.table p.of.heads w.old p.a p.b × (o < p.of.table.stride) }
    ensures { Taken p.of.heads w.old w.new p.b result
        (InsertedSorted p.of.table p.of.heads w.old w.new p.a p.b o q O.precedes) }
{
    let r = head_of(w, p.of.heads, p.b);
    if r == 0 {
        return None;
    }
    let head = head_of(w, p.of.heads, p.a);
    let place = Placed {
        words: w,
        table: p.of.table,
    }
    .find_place::<O>(o, q, head);
    insert_after(w, p, place, r);
    Some(r)
}

// The rows of chain a with v in their word o go to chain b.
// Kept: rows linked by their numbers in the lent `&mut` words are the form of document 01, and there is no heap
// Kept: public, and no other function promises it, though nothing calls it here; it tests a word by its offset.
// Kept: Ready p.of, o < stride; the head of this file says why.
pub fn unlink_if(w: &mut [u64], p: Pair, o: usize, v: usize)
    requires { Ready p.of.table p.of.heads w.old p.a p.b × (o < p.of.table.stride) × (o ≡ p.of.table.off → ⊥) }
    ensures { UnlinkedBy (holds p.of.table w.old o v) p.of.table p.of.heads w.old w.new p.a p.b }
{
    let mut place = 0;
    let mut walk = Cursor::new(p.of.table, head_of(w, p.of.heads, p.a));
    while let Some(r) = walk.along(&Placed {
        words: w,
        table: p.of.table,
    }) {
        let x = Placed {
            words: w,
            table: p.of.table,
        }
        .word(r, o);
        if x == v {
            unlink(w, p, place, r);
        } else {
            place = r;
        }
    }
}

// All rows after a place of chain a go to chain b, one by one. Replies how many.
// Kept: rows linked by their numbers in the lent `&mut` words are the form of document 01, and there is no heap
// Kept: Ready p.of, place and row; the head of this file says why.
pub fn empty_after(w: &mut [u64], p: Pair, place: usize) -> usize
    requires { Ready p.of.table p.of.heads w.old p.a p.b × Place p.of.table p.of.heads w.old p.a place }
    ensures { Emptied p.of.table p.of.heads w.old w.new p.a p.b place result }
{
    let mut walk = Cursor::new(p.of.table, next_after(w, p.of, p.a, place));
    while let Some(i) = walk.along(&Placed {
        words: w,
        table: p.of.table,
    }) {
        unlink(w, p, place, i);
    }
    p.of.table.count - walk.left
}
