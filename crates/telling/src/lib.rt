// What a caller from another language hears of a reply that hands something out: its number and the lent numbers after
// it, by the number and values that `types` gives its case. Rests on the crates `types` and `codes`.
#![tactic(auto)]

ghost use Rattle.std.specs.Prelude.{◌≡◌, [], ◌∷◌, MatchResult};
ghost use Rattle.types.specs.Replies.{of_point, of_begin, of_lock, of_read, of_found, of_commit, of_purge, of_view};
ghost use Rattle.types.specs.Replies.{of_refusal};
ghost use Rattle.codes.specs.Codes.{Tells, code_of, numbers_of};

use codes::{bits, mark, refusal};
use types::{Found, Freed, Handle, Point, Refusal, Seen, Span};

// The number of `nopoint`, which is above those of the refusals and below codes' CODES.
// Kept: a number that the C header names.
pub const NOPOINT: u64 = 31;

// Which of its three replies a granted Read has.
// Kept: the C header names the three.
const NEW: u64 = 1;

// Kept: as NEW.
const OWN: u64 = 2;

// Kept: as NEW.
const AGAIN: u64 = 3;

// The numbers of a granted Read.
// Kept: C hears a Read as five numbers, at pointers of their own or in a row, and an array has no From here.
pub fn found(f: Found) -> [u64; 5]
    ensures { result ≡ numbers_of (of_found f) [] }
{
    match f {
        Found::Read(from, to, v) => [NEW, u64::from(from), u64::from(to), mark(v), bits(v)],
        Found::Own(x) => [OWN, 0, 0, 1, x],
        Found::Again(from, v) => [AGAIN, u64::from(from), 0, mark(v), bits(v)],
    }
}

// Whether a call was granted: 0, or the number of the refusal.
// Kept: C hears a refusal as a number, and 0 for none. One public function of `codes` for this, `verdicts::done` and
// `sessions::open` would be longer than the two arms of each.
fn code<T: Copy>(r: Result<T, Refusal>) -> u64
    ensures { MatchResult r (λ x. result ≡ 0) (λ no. result ≡ code_of (of_refusal no)) }
{
    r.map_or_else(refusal, |_| 0)
}

// Each call's reply: 0 and its values, or the number of a refusal, which leaves the lent numbers.
// Kept: C asks for the number of a refusal, and for each value at a pointer of its own.
pub fn point(r: Result<Point, Refusal>, point: &mut u64) -> u64
    ensures { Tells (of_point r) result (point.old ∷ []) (point.new ∷ []) }
{
    if let Ok(p) = r {
        *point = u64::from(p);
    }
    code(r)
}

// Kept: as `point`; `r.map(|h| ..)` was tried: of a closure not called `map` says nothing, so not that `handle` stays.
pub fn begin(r: Result<Handle, Refusal>, handle: &mut u64) -> u64
    ensures { Tells (of_begin r) result (handle.old ∷ []) (handle.new ∷ []) }
{
    if let Ok(h) = r {
        *handle = u64::from(h);
    }
    code(r)
}

// Kept: as `begin`, with two values; one function for N values would be lent an array, which C does not lend.
pub fn lock(r: Result<Span, Refusal>, low: &mut u64, high: &mut u64) -> u64
    ensures { Tells (of_lock r) result
        (low.old ∷ high.old ∷ [])
        (low.new ∷ high.new ∷ []) }
{
    if let Ok(span) = r {
        *low = u64::from(span.low);
        *high = u64::from(span.high);
    }
    code(r)
}

// Kept: as `lock`, with the five pointers that the C header asks for.
pub fn read(
    r: Result<Found, Refusal>,
    kind: &mut u64,
    tr: &mut u64,
    end: &mut u64,
    written: &mut u64,
    value: &mut u64,
) -> u64
    ensures { Tells (of_read r) result
        (kind.old ∷ tr.old ∷ end.old ∷ written.old ∷ value.old ∷ [])
        (kind.new ∷ tr.new ∷ end.new ∷ written.new ∷ value.new ∷ []) }
{
    if let Ok(f) = r {
        [*kind, *tr, *end, *written, *value] = found(f);
    }
    code(r)
}

// Kept: as `begin`, with a third outcome, `nopoint`, which has a number of its own and puts nothing.
pub fn commit(r: Result<Option<Point>, Refusal>, point: &mut u64) -> u64
    ensures { Tells (of_commit r) result (point.old ∷ []) (point.new ∷ []) }
{
    match r {
        Ok(Some(t)) => {
            *point = u64::from(t);
            0
        }
        Ok(None) => NOPOINT,
        Err(x) => refusal(x),
    }
}

// Kept: as `lock`, with the two counts.
pub fn purge(r: Result<Freed, Refusal>, versions: &mut u64, locks: &mut u64) -> u64
    ensures { Tells (of_purge r) result
        (versions.old ∷ locks.old ∷ [])
        (versions.new ∷ locks.new ∷ []) }
{
    if let Ok(freed) = r {
        *versions = freed.versions;
        *locks = freed.locks;
    }
    code(r)
}

// Kept: as `lock`, with the three pointers that the C header asks for.
pub fn view(r: Result<Seen, Refusal>, point: &mut u64, written: &mut u64, value: &mut u64) -> u64
    ensures { Tells (of_view r) result
        (point.old ∷ written.old ∷ value.old ∷ [])
        (point.new ∷ written.new ∷ value.new ∷ []) }
{
    if let Ok(seen) = r {
        *point = u64::from(seen.point);
        *written = mark(seen.value);
        *value = bits(seen.value);
    }
    code(r)
}
