// The lookups of the calls: read-only, each equal to a function of the decoded store. Rests on the crates `types`,
// `meaning`, `chains` and `tables`. The words come as `Tables`, a `Record` or a `Slot` of them, which hold that the
// words have these counts and that the number is in range; on any such words the lookups are exact, and they also serve
// the soundness check. Only the rooms ask more, that every row is on one chain. This file has the names; `edits`,
// `accesses` and `versions` look one up, `free_rows` has the room for changes.
#![tactic(auto)]

mod accesses;
mod edits;
mod free_rows;
mod versions;

pub use accesses::{access_in, access_row};
pub use edits::{free_slot, is_open, known};
pub use free_rows::{access_room, lock_room, version_room};
pub use versions::{newest_at, newest_below, version_on, version_stands};
