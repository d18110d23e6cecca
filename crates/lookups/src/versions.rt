// Versions of a record: the newest below or at a point, and the one that stands on it. Each is one walk of the
// record's version chain. Rests on the crates `types`, `meaning`, `chains` and `tables`.
ghost use Rattle.std.specs.Prelude.{◌≡◌, eqb};
ghost use Rattle.meaning.specs.Store.{newest_at, newest_below, version_on};
ghost use Rattle.meaning.specs.Lists.{any};
ghost use Rattle.tables.specs.Views.{rec_in};

use tables::Record;
use types::Version;

// A record's first state, below all its versions: never written.
const FIRST: Version = Version {
    point: 0,
    value: None,
    spare: 0,
};

// Kept: the iterator's method is the generic one, the line shows the test. A chain can only be walked, falling or not.
// Kept: below all versions document 01 has the first state, point 0 and never written: it is the answer there.
pub fn newest_below(r: Record<'_>, m: u64) -> Version
    ensures { result ≡ newest_below (rec_in r.entry).versions m }
{
    r.versions().find(|v| v.point < m).unwrap_or(FIRST)
}

// Kept: the iterator's method is the generic one, the line shows the test. A chain can only be walked, falling or not.
// Kept: below all versions document 01 has the first state, point 0 and never written: it is the answer there.
pub fn newest_at(r: Record<'_>, p: u64) -> Version
    ensures { result ≡ newest_at (rec_in r.entry).versions p }
{
    r.versions().find(|v| v.point <= p).unwrap_or(FIRST)
}

// Kept: the iterator's method is the generic one, the line shows the test. A chain can only be walked, falling or not.
// Kept: where no version stands on the point, the answer is the first state of document 01, point 0 and never written.
pub fn version_on(r: Record<'_>, p: u64) -> Version
    ensures { result ≡ version_on (rec_in r.entry).versions p }
{
    r.versions().find(|v| v.point == p).unwrap_or(FIRST)
}

// Kept: the iterator's method is the generic one, the line shows the test. A chain can only be walked, falling or not.
pub fn version_stands(r: Record<'_>, p: u64) -> bool
    ensures { result ≡ any (λ v. eqb v.point p) (rec_in r.entry).versions }
{
    r.versions().any(|v| v.point == p)
}
