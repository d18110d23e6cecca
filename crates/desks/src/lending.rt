// `read`, `write` and `commit` of the desk on a lent session: each lends a copy of the session, and answers the session
// left with what was told. So each has the contract of the function by value. Rests on `layers` and `desk`.
ghost use Rattle.layers.specs.Serial.{Layer};
ghost use Rattle.desk.specs.Desk.{desk_read, desk_write, desk_commit};
ghost use Rattle.desk.specs.Replies.{of_read_step, of_write_step, of_commit_step};

use desk::{Session, Step};
use types::{Found, Point, Refusal};

// Kept: as `write`; no public function with a contract goes.
pub fn read(words: &mut [u64], s: Session, rec: u64) -> Step<Result<Option<Found>, Refusal>>
    ensures { Layer (desk_read s rec) words.old words.new (of_read_step result) }
{
    let mut t = s;
    let reply = desk::read(words, &mut t, rec);
    Step { session: t, reply }
}

// Kept: two edits break contracts of this file, each keeps its place, and the scenes' own functions have no contract.
pub fn write(words: &mut [u64], s: Session, rec: u64, value: u64) -> Step<Result<(), Refusal>>
    ensures { Layer (desk_write s rec value) words.old words.new (of_write_step result) }
{
    let mut t = s;
    let reply = desk::write(words, &mut t, rec, value);
    Step { session: t, reply }
}

// Kept: as `write`.
pub fn commit(words: &mut [u64], s: Session) -> Step<Result<Option<Point>, Refusal>>
    ensures { Layer (desk_commit s) words.old words.new (of_commit_step result) }
{
    let mut t = s;
    let reply = desk::commit(words, &mut t);
    Step { session: t, reply }
}
