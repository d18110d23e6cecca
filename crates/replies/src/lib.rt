// What a line prints, and the line of a refusal and of the reply of each call that answers `ok`, by the number and
// values that `types` gives its case. `value_replies` has the line of what a call of any kind gives. Rests on the
// crates `types` and `texts`.
#![tactic(auto)]

ghost use Rattle.std.specs.Prelude.{◌≡◌, Some};
ghost use Rattle.types.specs.Replies.{of_refusal, of_done};
ghost use Rattle.replies.specs.Lines.{line_of};

use std::fmt;
use texts::Printed;
use types::{Refusal, Value};

// What a line prints: a reply, or `?`.
// Kept: the line of any reply, `line_of` of specs/Lines, has its number, also one that is no refusal's.
#[derive(Clone, Copy)]
pub enum Line {
    Ok,
    Edit(u64),
    Locked(u64, u64),
    Read(u64, u64, Value),
    Own(u64),
    Again(u64, Value),
    Commit(u64),
    NoPoint,
    Purged(u64, u64),
    At(u64, Value),
    No(u64),
    Held(u64),
    Malformed,
}

impl fmt::Display for Line {
    ghost use Rattle.replies.specs.Shown.{shown};

    ghost output = { λ l. Some (shown l) };

    fn fmt<W: fmt::Write>(&self, f: &mut fmt::Formatter<W>) -> fmt::Result {
        match *self {
            Line::Ok => f.write_str("ok"),
            Line::Edit(h) => write!(f, "edit {h}"),
            Line::Locked(low, high) => write!(f, "locked {low} {high}"),
            Line::Read(tr, end, v) => write!(f, "read {tr} {end} {}", Printed(v)),
            Line::Own(v) => write!(f, "own {v}"),
            Line::Again(tr, v) => write!(f, "again {tr} {}", Printed(v)),
            Line::Commit(p) => write!(f, "commit {p}"),
            Line::NoPoint => f.write_str("nopoint"),
            Line::Purged(versions, locks) => write!(f, "purged {versions} {locks}"),
            Line::At(p, v) => write!(f, "at {p} {}", Printed(v)),
            Line::No(n) => write!(f, "no {n}"),
            Line::Held(h) => write!(f, "no 8 {h}"),
            Line::Malformed => f.write_str("?"),
        }
    }
}

// The line of a refusal: its number, and the holder's handle for 8.
impl From<Refusal> for Line {
    ghost from_gives = { λ r l. l ≡ line_of (of_refusal r) };

    fn from(r: Refusal) -> Line {
        match r {
            Refusal::Held(h) => Line::Held(u64::from(h)),
            // Kept: the line of a refusal has its number, as document 01 prints it.
            _ => Line::No(r.number()),
        }
    }
}

// The line of the reply of a call that answers `ok`: Format, Write, Abort and Settle.
pub fn line_of_done(r: Result<(), Refusal>) -> Line
    ensures { result ≡ line_of (of_done r) }
{
    match r {
        Ok(()) => Line::Ok,
        Err(x) => Line::from(x),
    }
}
