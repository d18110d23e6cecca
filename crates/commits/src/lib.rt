// Commit on sound words: equal to its definition in the crate `meaning`, and leaving sound words. For callers who prove
// the words sound (`requires sound_words`), as the calls of `calls` and `endings`. It goes along the edit's accesses
// and the locks of their records; if it settles the edit, along the locks of each record that it may have touched.
// Rests on the crates `types`, `meaning`, `chains`, `tables`, `changes`, `slots`, `lookups`, `blocking`, `common`,
// `index`, `calls` and `endings`.
// Kept, words and counts: lent to be changed; over a struct of both each would promise, too, that they stay (Rattle's
// docs/BORROWS.md).
// Kept, Ready c w: `Well` and more, of words before a change; a ghost field would say it of the words after it.
// Kept, sound words: what a caller proves once for many calls, of words that each call changes.
// Kept, Indexed: between words that change and an index, which C callers lend one beside the other.
// Kept, words and index: two memories that C callers lend, one of them to be changed.
// Kept, finish and index: the call's own flag, and the memory that C callers lend. Contracts say them apart, as the
// meaning does, so that a struct of both would be opened in each.
// Kept, state ≡ OPEN: what `open_slot` found, of words that change.
#![tactic(auto)]

ghost use Rattle.std.specs.Prelude.{◌≡◌, true, ◌≤◌};
ghost use Rattle.types.specs.Limits.{OPEN};
ghost use Rattle.meaning.specs.Store.{edit_at};
ghost use Rattle.types.specs.Replies.{nopoint, of_commit};
ghost use Rattle.meaning.specs.Ending.{finished, aborted, commit_open, committing};
ghost use Rattle.meaning.specs.Points.{in_common};
ghost use Rattle.tables.specs.Decode.{decode_at};
ghost use Rattle.tables.specs.Words.{lent, decode, sound_words};
ghost use Rattle.index.specs.Index.{Indexed};
ghost use Rattle.calls.specs.Contract.{Acts, Ready, Makes};
ghost use Rattle.meaning.specs.Outcomes.{replies};
ghost use Rattle.types.specs.declared.Pick.TheVariants.{Named};
ghost use Rattle.endings.specs.Parts.{commit_at, commit_at_or_none, CommonAt};

use common::CommonSet;
use endings::Step;
use index::IndexOf;
use tables::{Row, Slot, Tables};
use types::{Access, COMMITTED, Counts, Finish, Handle, Pick, Point, Refusal};

// The version that each written access makes at t.
#[derive(Clone, Copy)]
struct Save {
    t: u64,
    ghost later: { 1 ≤ t },
}

impl Step for Save {
    ghost use Rattle.endings.specs.Steps.{saved_rec, SaveNeed};

    ghost makes = { λ s. saved_rec s.t };

    ghost need = { λ s. SaveNeed };

    // Kept: words and counts; the head of this file says why.
    fn turn(self, w: &mut [u64], c: Counts, i: usize) {
        let tables = Tables {
            words: w,
            counts: c,
        };
        let a = Access::read(tables, i);
        if let Some(value) = a.value.written() {
            changes::add_version(w, c, a.rec as usize, self.t, value);
        }
    }
}

// Kept: words and counts, finish and index, state ≡ OPEN, Indexed, Ready c w; the head of this file says why.
fn no_point(
    w: &mut [u64],
    c: Counts,
    finish: Finish,
    index: IndexOf<'_>,
) -> Result<Option<Point>, Refusal>
    requires { Ready c w.old × ((edit_at (decode_at c w.old) index.slot).state ≡ OPEN)
        × Indexed (decode_at c w.old) index.numbers.now }
    ensures { Makes c
        (replies (finished finish (aborted (decode_at c w.old) index.entry.slot) index.entry.slot) nopoint)
        w.old w.new (of_commit result) }
{
    endings::end_aborted(w, c, finish, index);
    Ok(None)
}

// At the point t of the common set. Nothing is saved where a version row is missing.
// Kept: words and counts, finish and index, state ≡ OPEN, Indexed, Ready c w; the head of this file says why.
fn commit_at(
    w: &mut [u64],
    c: Counts,
    t: u64,
    finish: Finish,
    index: IndexOf<'_>,
) -> Result<Option<Point>, Refusal>
    requires { Ready c w.old × ((edit_at (decode_at c w.old) index.slot).state ≡ OPEN)
        × (in_common (decode_at c w.old).records index.slot (edit_at (decode_at c w.old) index.slot) t ≡ true)
        × Indexed (decode_at c w.old) index.numbers.now }
    ensures { Makes c (commit_at (decode_at c w.old) index.entry.slot t finish) w.old w.new (of_commit result) }
{
    let tables = Tables {
        words: w,
        counts: c,
    };
    if !lookups::version_room(Slot {
        tables,
        number: index.slot,
    }) {
        return Err(Refusal::NoVersionRow);
    }
    endings::each_access(w, c, index.slot, Save { t });
    slots::set_state(w, c, index.slot, COMMITTED, t);
    endings::finish_slot(w, c, finish, index);
    Ok(Some(Point::from(t)))
}

// At the point t of the common set, or nowhere where it has none.
// Kept: words and counts, finish and index, state ≡ OPEN, Indexed, Ready c w; the head of this file says why.
fn commit_at_or_none(
    w: &mut [u64],
    c: Counts,
    t: Option<u64>,
    finish: Finish,
    index: IndexOf<'_>,
) -> Result<Option<Point>, Refusal>
    requires { Ready c w.old × ((edit_at (decode_at c w.old) index.slot).state ≡ OPEN)
        × CommonAt (decode_at c w.old) index.slot t × Indexed (decode_at c w.old) index.numbers.now }
    ensures { Makes c (commit_at_or_none (decode_at c w.old) index.entry.slot t finish) w.old w.new
        (of_commit result) }
{
    match t {
        Some(point) => commit_at(w, c, point, finish, index),
        None => no_point(w, c, finish, index),
    }
}

// Kept: words and counts, finish and index, state ≡ OPEN, Indexed, Ready c w; the head of this file says why.
fn commit_named(
    w: &mut [u64],
    c: Counts,
    p: Point,
    finish: Finish,
    index: IndexOf<'_>,
) -> Result<Option<Point>, Refusal>
    requires { Ready c w.old × ((edit_at (decode_at c w.old) index.slot).state ≡ OPEN)
        × Indexed (decode_at c w.old) index.numbers.now }
    ensures { Makes c (commit_open (decode_at c w.old) index.entry.slot (Named p) finish) w.old w.new
        (of_commit result) }
{
    let x = u64::from(p);
    let tables = Tables {
        words: w,
        counts: c,
    };
    let slot = Slot {
        tables,
        number: index.slot,
    };
    let set = CommonSet { slot };
    if set.contains(x) {
        return commit_at(w, c, x, finish, index);
    }
    match set.earliest() {
        None => no_point(w, c, finish, index),
        Some(_) => Err(Refusal::NotCommon),
    }
}

// Kept: the three ways to pick a point are three searches, an arm each; as closures they would all be handed on.
// Kept: words and counts, finish and index, state ≡ OPEN, Indexed, Ready c w; the head of this file says why.
fn commit_open(
    w: &mut [u64],
    c: Counts,
    pick: Pick,
    finish: Finish,
    index: IndexOf<'_>,
) -> Result<Option<Point>, Refusal>
    requires { Ready c w.old × ((edit_at (decode_at c w.old) index.slot).state ≡ OPEN)
        × Indexed (decode_at c w.old) index.numbers.now }
    ensures { Makes c (commit_open (decode_at c w.old) index.entry.slot pick finish) w.old w.new (of_commit result) }
{
    let tables = Tables {
        words: w,
        counts: c,
    };
    let slot = Slot {
        tables,
        number: index.slot,
    };
    let set = CommonSet { slot };
    match pick {
        Pick::Earliest => {
            let t = set.earliest();
            commit_at_or_none(w, c, t, finish, index)
        }
        Pick::Latest => {
            let t = set.latest();
            commit_at_or_none(w, c, t, finish, index)
        }
        Pick::Named(p) => commit_named(w, c, p, finish, index),
    }
}

// Kept: words and index, finish and index, Indexed, sound words; the head of this file says why.
pub fn commit(
    w: &mut [u64],
    h: Handle,
    pick: Pick,
    finish: Finish,
    ix: &[u16],
) -> Result<Option<Point>, Refusal>
    requires { (sound_words (lent w.old) ≡ true) × Indexed (decode (lent w.old)) ix.now }
    ensures { Acts (committing h.0 pick finish) (lent w.old) (lent w.new) (of_commit result) }
{
    let c = tables::counts_of(w);
    let tables = Tables {
        words: w,
        counts: c,
    };
    let k = calls::open_slot(tables, h)?;
    if let Pick::Named(p) = pick {
        calls::point(1, p)?;
    }
    let index = IndexOf {
        numbers: ix,
        slot: k,
    };
    commit_open(w, c, pick, finish, index)
}
