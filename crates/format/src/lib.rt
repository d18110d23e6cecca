// The call Format: it lays out a store in a lent slice, whatever the slice held, or refuses and leaves every word as it
// was. Rests on the crates `types`, `meaning`, `chains` and `tables`.
// Kept, words and counts: a struct that holds lent `&mut` words would have each contract say that it keeps them
// Kept, Ranged c: found by format_fits, right before the one call
#![tactic(auto)]

ghost use Rattle.std.specs.Prelude.{◌≡◌, ◌≤◌, ◌<◌, length};
ghost use Rattle.std.proofs.lemmas.List.Edits.{sets};
ghost use Rattle.chains.specs.Table.{Lies};
ghost use Rattle.types.specs.Replies.{of_done};
ghost use Rattle.tables.specs.Layout.{HEADER, Ranged, size_of};
ghost use Rattle.format.specs.Format.{header_words, next_free, linked, formatted_words, format_fits, Formats};

use chains::Table;
use tables::Part;
use types::{Access, Counts, Lock, Refusal, Version};

// Whether the counts are in range and n is the number of words that they ask for.
fn format_fits(n: usize, c: Counts) -> bool
    ensures { result ≡ format_fits c n }
{
    tables::good_counts(c) && n == tables::size_of(c)
}

// The counts, and row 1 as the first of each free chain.
// Kept: the one writer of the counts; no derive knows offsets (its counterpart is tables::counts_of).
// Kept: words and counts; the head of this file says why.
fn write_header(w: &mut [u64], c: Counts)
    requires { HEADER ≤ length w.old }
    ensures { w.new ≡ sets w.old 0 (header_words c) }
{
    w[tables::H_RECORDS] = c.records as u64;
    w[tables::H_EDITS] = c.edits as u64;
    w[tables::H_VERSIONS] = c.versions as u64;
    w[tables::H_LOCKS] = c.locks as u64;
    w[tables::H_ACCESSES] = c.accesses as u64;
    w[tables::FREE_VERSION] = 1;
    w[tables::FREE_LOCK] = 1;
    w[tables::FREE_ACCESS] = 1;
}

// The row after row i on a free chain of n rows.
// Kept: it is stored as a link word of document 01, where 0 ends a chain
fn next_free(n: usize, i: usize) -> usize
    requires { i ≤ n }
    ensures { result ≡ next_free n i }
{
    if i < n { i + 1 } else { 0 }
}

// The rows of a table, linked in rising order.
// Kept: rows linked in the lent words are the store's own form, without a heap, and `&mut` words lie in no struct here
fn link_rows(w: &mut [u64], t: Table)
    requires { Lies t w.old }
    ensures { w.new ≡ linked t w.old }
{
    for i in 1..=t.count {
        chains::put(w, t, i, t.off, next_free(t.count, i));
    }
}

// Kept: words and counts, Ranged c; the head of this file says why.
fn lay_out(w: &mut [u64], c: Counts)
    requires { Ranged c × (length w.old ≡ size_of c) }
    ensures { w.new ≡ formatted_words c }
{
    w.fill(0);
    write_header(w, c);
    link_rows(w, Version::table(c));
    link_rows(w, Lock::table(c));
    link_rows(w, Access::table(c));
}

// Format: refused with 16 if a count is out of range or the slice has not the length that the counts ask for.
// Kept: words and counts; the head of this file says why.
pub fn format(words: &mut [u64], counts: Counts) -> Result<(), Refusal>
    ensures { Formats counts words.old words.new (of_done result) }
{
    if !format_fits(words.len(), counts) {
        return Err(Refusal::BadFormat);
    }
    lay_out(words, counts);
    Ok(())
}
