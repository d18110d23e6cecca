// The planning desk (M-101): the layer that our product calls, over the public calls of the store and nothing below.
// A session has an edit's handle and its working interval. `open` gives one; `read`, `write` and `commit` are lent it
// and update it in place. Each of the three is thin: it takes the session out, calls the function that does the work by
// value, and puts the session back. What each does is a program of calls of the store (specs/Desk), so that demand 3
// holds of desks as it does of the store. Rests on the crates `types`, `meaning`, `tables`, `history`, `layers` and
// `store`.
#![tactic(auto)]

ghost use Rattle.std.specs.Prelude.{◌≡◌, suc};
ghost use Rattle.types.specs.Replies.{of_done, of_commit};
ghost use Rattle.layers.specs.Programs.{slot, view};
ghost use Rattle.layers.specs.Serial.{Layer};
ghost use Rattle.desk.specs.Desk.{ended, closed, good_start, named, cut_to, ByLook, GoesOn, ended_reply, start_reply};
ghost use Rattle.desk.specs.Desk.{desk_open, desk_read, desk_write, desk_commit};
ghost use Rattle.desk.specs.Replies.{of_open, of_read_step, of_write_step, of_commit_step, says, reports};

use types::{Extent, Finish, Found, Handle, LAST, Pick, Point, Refusal};

// Which end of the interval left a commit names.
#[derive(Clone, Copy, PartialEq, Eq)]
pub enum Setting {
    Earliest,
    Latest,
}

// A desk's session. It has ended if the interval is empty.
#[derive(Clone, Copy)]
pub struct Session {
    pub handle: Handle,
    pub low: Point,
    pub high: Point,
    pub width: u64,
    pub setting: Setting,
}

// The session after a call, and what the desk is told.
#[derive(Clone, Copy)]
pub struct Step<R> {
    pub session: Session,
    pub reply: R,
}

// Nothing is left of the interval.
#[tactic(auto, unfolding(crate::specs::Desk::ended))]
fn has_ended(s: Session) -> bool
    ensures { result ≡ ended s }
{
    u64::from(s.high) < u64::from(s.low)
}

// The session once its edit has ended.
// Kept: C has a session as five numbers, which the header says have ended exactly if high is below low.
fn closed(s: Session) -> Session
    ensures { result ≡ closed s }
{
    Session {
        low: Point::from(1),
        high: Point::from(0),
        ..s
    }
}

// What is left of the interval above tr and up to end, if any point is.
fn cut(s: Session, tr: Point, end: Point) -> Option<Session>
    ensures { result ≡ cut_to s (suc tr.0) end.0 }
{
    let high = u64::from(s.high).min(u64::from(end));
    let low = u64::from(s.low).max(u64::from(tr).checked_add(1)?);
    let left = Session {
        low: Point::from(low),
        high: Point::from(high),
        ..s
    };
    if has_ended(left) { None } else { Some(left) }
}

// The point that a commit names.
#[tactic(auto, unfolding(crate::specs::Desk::named))]
fn named_point(s: Session) -> Point
    ensures { result ≡ named s }
{
    match s.setting {
        Setting::Earliest => s.low,
        Setting::Latest => s.high,
    }
}

// Whether a session can start at t. The sum t + width is not made: it may not fit in a word.
#[tactic(auto, unfolding(crate::specs::Desk::good_start))]
fn good_start(t: Point, width: u64) -> bool
    ensures { result ≡ good_start t.0 width }
{
    let from = u64::from(t);
    1 <= from && from <= LAST && width <= LAST - from
}

// What an ended session is refused with: 1 if the store is not sound, else 3.
fn refuse_ended(words: &[u64]) -> Refusal
    ensures { ByLook (view 0 0) ended_reply words.now result }
{
    match store::view(words, 0, Point::from(0)) {
        Err(Refusal::Unsound) => Refusal::Unsound,
        _ => Refusal::EditEnded,
    }
}

// The refusal of an ended session.
fn going(words: &[u64], s: Session) -> Result<(), Refusal>
    ensures { GoesOn s words.now result }
{
    if has_ended(s) {
        return Err(refuse_ended(words));
    }
    Ok(())
}

// A refused call gives the session back as it was.
fn refused<R>(s: Session, no: Refusal) -> Step<Result<R, Refusal>>
    ensures { result ≡ record { session = s; reply = Err no } }
{
    Step {
        session: s,
        reply: Err(no),
    }
}

// What opening at a bad point is refused with: 1, 13 or 6.
fn refuse_start(words: &[u64]) -> Refusal
    ensures { ByLook slot start_reply words.now result }
{
    match store::would_begin(words) {
        Ok(()) => Refusal::BadPoint,
        Err(no) => no,
    }
}

// A new edit with the working interval t to t + width.
pub fn open(words: &mut [u64], t: Point, width: u64, setting: Setting) -> Result<Session, Refusal>
    ensures { Layer (desk_open t.0 width setting) words.old words.new (of_open result) }
{
    if !good_start(t, width) {
        return Err(refuse_start(words));
    }
    let handle = store::begin(words)?;
    Ok(Session {
        handle,
        low: t,
        high: Point::from(u64::from(t) + width),
        width,
        setting,
    })
}

// What the store found; the interval shrinks to the part of it that was locked. None if nothing of it is left: the edit
// is aborted and settled then.
// Kept: no `?`, since a refused call gives the session back too.
pub fn read_with(words: &mut [u64], s: Session, rec: u64) -> Step<Result<Option<Found>, Refusal>>
    ensures { Layer (desk_read s rec) words.old words.new (of_read_step result) }
{
    if let Err(no) = going(words, s) {
        return refused(s, no);
    }
    let found = match store::read(words, s.handle, rec, s.high, Extent::Part) {
        Ok(found) => found,
        Err(no) => return refused(s, no),
    };
    let mut session = s;
    if let Found::Read(tr, end, _) = found {
        match cut(s, tr, end) {
            Some(left) => session = left,
            None => {
                let _ = store::abort(words, s.handle, Finish::Settle);
                return Step {
                    session: closed(s),
                    reply: Ok(None),
                };
            }
        }
    }
    Step {
        session,
        reply: Ok(Some(found)),
    }
}

// A value for the record, pending until the commit. The interval shrinks to what was locked.
// Kept: no `?`, as `read_with`; the three share `going`, and what they ask of the store and make of it differs.
pub fn write_with(words: &mut [u64], s: Session, rec: u64, value: u64) -> Step<Result<(), Refusal>>
    ensures { Layer (desk_write s rec value) words.old words.new (of_write_step result) }
{
    if let Err(no) = going(words, s) {
        return refused(s, no);
    }
    match store::lock(words, s.handle, rec, s.low, s.high, Extent::Part) {
        Ok(locked) => Step {
            session: Session {
                low: locked.low,
                high: locked.high,
                ..s
            },
            reply: store::write(words, s.handle, rec, value),
        },
        Err(no) => refused(s, no),
    }
}

// The edit is committed at an end of the interval left, and settled.
// Kept: no `?`, as `read_with`.
pub fn commit_with(words: &mut [u64], s: Session) -> Step<Result<Option<Point>, Refusal>>
    ensures { Layer (desk_commit s) words.old words.new (of_commit_step result) }
{
    if let Err(no) = going(words, s) {
        return refused(s, no);
    }
    match store::commit(words, s.handle, Pick::Named(named_point(s)), Finish::Settle) {
        Ok(point) => Step {
            session: closed(s),
            reply: Ok(point),
        },
        Err(no) => refused(s, no),
    }
}

// The thin functions, which are lent the session: document 01 names this form.

// `read`, of the session lent.
pub fn read(words: &mut [u64], s: &mut Session, rec: u64) -> Result<Option<Found>, Refusal>
    ensures { Layer (desk_read s.old rec) words.old words.new (reports s.new result) }
{
    let step = read_with(words, *s, rec);
    *s = step.session;
    step.reply
}

// `write`, of the session lent.
// Kept: public, with a reply of its own; one function for the three would take a closure over two `&mut`.
pub fn write(words: &mut [u64], s: &mut Session, rec: u64, value: u64) -> Result<(), Refusal>
    ensures { Layer (desk_write s.old rec value) words.old words.new
        (says s.new (of_done result)) }
{
    let step = write_with(words, *s, rec, value);
    *s = step.session;
    step.reply
}

// `commit`, of the session lent.
// Kept: as `write`.
pub fn commit(words: &mut [u64], s: &mut Session) -> Result<Option<Point>, Refusal>
    ensures { Layer (desk_commit s.old) words.old words.new
        (says s.new (of_commit result)) }
{
    let step = commit_with(words, *s);
    *s = step.session;
    step.reply
}
