// The common set of an edit: whether a point is in it, its earliest and its latest point, access by access. Read-only
// searches as those of `blocking`: each equals a function of the decoded store. `sets` has the set and what one access
// asks of it, `allowed` the points that an access allows, `ends` the two ends of all points, `nearing` the search from
// an end for the nearest point of the set. Rests on the crates `types`, `meaning`, `locks`, `tables` and `blocking`.
#![tactic(auto)]

mod allowed;
mod ends;
mod nearing;
mod sets;

pub use allowed::write_on;
pub use sets::{CommonSet, Limit};

// The least point that an edit may commit at.
const LOWEST: u64 = 1;
