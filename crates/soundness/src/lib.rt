// The check that lent words are a sound store: exact for every slice, and ending on any words.
//
// `check` alone needs nothing. The other functions, here and in `slot_clauses` and `record_clauses`, are over the
// tables of words that have their counts, or over a record or a slot of them; each equals one clause of soundness, or
// the clauses of one record or of one slot. It takes at most a small constant times these steps: one for each word, and
// for each record the number of its locks times that of its versions and accesses. Each chain of a table is walked
// within one budget of rows, the locks of a record are compared with one another in one pass, a record that an edit
// names is stamped, and the locks of an edit on the records that it wrote are marked, so that no clause walks an edit's
// accesses for a record.
//
// This file has `check`; `word_clauses` has the clauses on the words. Rests on the crates `tables`, `slot_clauses` and
// `record_clauses`.
#![tactic(auto)]

mod word_clauses;

ghost use Rattle.std.specs.Prelude.{◌≡◌};
ghost use Rattle.tables.specs.Words.{lent, sound_words};

use record_clauses::{all_pass, records_sound};
use slot_clauses::slots_sound;
use tables::Tables;
use word_clauses::formed_at;

// Whether the words are a sound store. Each step asks for those before it: the locks of all records come first, since
// the search for an edit's common set, a clause of slots, is right only where locks rise; and records come after slots,
// since the marks on locks say who wrote only where each edit names a record once.
pub fn check(words: &[u64]) -> bool
    ensures { result ≡ sound_words (lent words.now) }
{
    if !tables::header_ok(words) {
        return false;
    }
    let counts = tables::counts_of(words);
    let t = Tables { words, counts };
    formed_at(t) && (all_pass(t) && (slots_sound(t) && records_sound(t)))
}
