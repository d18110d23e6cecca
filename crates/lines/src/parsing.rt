// The calls, one function for each letter, and the whole line. Rests on the crates `types` and `fields`.
ghost use Rattle.std.specs.Prelude.{◌≡◌, ℕ};
ghost use Rattle.lines.specs.Calls.{formatting, beginning, writing, locking, reading, committing, aborting};
ghost use Rattle.lines.specs.Calls.{settling, recording, called as called·of, parsed};
ghost use Rattle.types.specs.declared.Point.{Point as ThePoint};
ghost use Rattle.types.specs.declared.Call.{Call as TheCall};

use crate::LONGEST;
use fields::{Command, Fields};
use types::{Call, Counts, Handle, Point};

// F records edits versions locks accesses
#[tactic(auto, unfolding(crate::specs::Calls::formatting))]
fn format(fields: &mut Fields<'_>) -> Option<Command>
    ensures { result ≡ formatting fields.old }
{
    let counts = Counts {
        records: fields.number()? as usize,
        edits: fields.number()? as usize,
        versions: fields.number()? as usize,
        locks: fields.number()? as usize,
        accesses: fields.number()? as usize,
    };
    fields.done(Command::Format(counts))
}

// B
#[tactic(auto, unfolding(crate::specs::Calls::beginning))]
fn begin(fields: &Fields<'_>) -> Option<Command>
    ensures { result ≡ beginning fields.now }
{
    fields.done(Command::Call(Call::Begin))
}

// W handle record value
#[tactic(auto, unfolding(crate::specs::Calls::writing))]
fn write(fields: &mut Fields<'_>) -> Option<Command>
    ensures { result ≡ writing fields.old }
{
    let h = Handle::from(fields.number()?);
    let r = fields.number()?;
    let v = fields.number()?;
    fields.done(Command::Call(Call::Write(h, r, v)))
}

// L handle record low high flag
#[tactic(auto, unfolding(crate::specs::Calls::locking))]
fn lock(fields: &mut Fields<'_>) -> Option<Command>
    ensures { result ≡ locking fields.old }
{
    let h = Handle::from(fields.number()?);
    let r = fields.number()?;
    let low = Point::from(fields.number()?);
    let high = Point::from(fields.number()?);
    let w = fields.extent()?;
    fields.done(Command::Call(Call::Lock(h, r, low, high, w)))
}

// R handle record m flag
#[tactic(auto, unfolding(crate::specs::Calls::reading))]
fn read(fields: &mut Fields<'_>) -> Option<Command>
    ensures { result ≡ reading fields.old }
{
    let h = Handle::from(fields.number()?);
    let r = fields.number()?;
    let m = Point::from(fields.number()?);
    let w = fields.extent()?;
    fields.done(Command::Call(Call::Read(h, r, m, w)))
}

// C handle, E, L or point, S or K
// Kept: what it shares with `write` is a `?` at each of its fields, which are of other kinds.
#[tactic(auto, unfolding(crate::specs::Calls::committing))]
fn commit(fields: &mut Fields<'_>) -> Option<Command>
    ensures { result ≡ committing fields.old }
{
    let h = Handle::from(fields.number()?);
    let p = fields.pick()?;
    let f = fields.finish()?;
    fields.done(Command::Call(Call::Commit(h, p, f)))
}

// A handle S or K
#[tactic(auto, unfolding(crate::specs::Calls::aborting))]
fn abort(fields: &mut Fields<'_>) -> Option<Command>
    ensures { result ≡ aborting fields.old }
{
    let h = Handle::from(fields.number()?);
    let f = fields.finish()?;
    fields.done(Command::Call(Call::Abort(h, f)))
}

// P record b, and V record p: the letter's call is made of the two.
#[tactic(auto, unfolding(crate::specs::Calls::recording))]
fn of_record_and_point<F: Fn(u64, Point) -> Call>(
    fields: &mut Fields<'_>,
    call: F,
) -> Option<Command>
    requires { F.IsAlwaysCallable call }
    ensures { (made : ℕ → ThePoint → TheCall)
        → ((r : ℕ) (p : ThePoint) (c : TheCall) → F.post call r p c → c ≡ made r p)
        → result ≡ recording made fields.old }
{
    let r = fields.number()?;
    let p = Point::from(fields.number()?);
    fields.done(Command::Call(call(r, p)))
}

// S handle
#[tactic(auto, unfolding(crate::specs::Calls::settling))]
fn settle(fields: &mut Fields<'_>) -> Option<Command>
    ensures { result ≡ settling fields.old }
{
    let h = Handle::from(fields.number()?);
    fields.done(Command::Call(Call::Settle(h)))
}

// The call of this letter, which these fields follow.
// Kept: it is document 01's list of letters; a table of functions says the same and finds the letter by hand.
#[tactic(auto, unfolding(crate::specs::Calls::called))]
fn called(letter: u8, fields: &mut Fields<'_>) -> Option<Command>
    ensures { result ≡ called·of letter fields.old }
{
    match letter {
        b'F' => format(fields),
        b'B' => begin(fields),
        b'W' => write(fields),
        b'L' => lock(fields),
        b'R' => read(fields),
        b'C' => commit(fields),
        b'A' => abort(fields),
        b'S' => settle(fields),
        b'P' => of_record_and_point(fields, Call::Purge),
        b'V' => of_record_and_point(fields, Call::View),
        _ => None,
    }
}

// What a line of bytes asks for, its newline not among them: a malformed one nothing.
#[tactic(auto, unfolding(crate::specs::Calls::parsed))]
pub fn parse(line: &[u8]) -> Option<Command>
    ensures { result ≡ parsed line.now }
{
    if LONGEST < line.len() {
        return None;
    }
    let mut fields = Fields::new(line);
    let letter = fields.letter()?;
    called(letter, &mut fields)
}
