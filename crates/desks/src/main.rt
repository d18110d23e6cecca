// Shows every reply of the planning desk: each call is printed with what it told, the interval left after it and
// whether any word of the store moved. Calls of the store itself stand between them as script lines. This file has the
// scenes; `desk_calls` makes a call and prints it, `lending` lends it the session. Rests on `desk`.
#![tactic(auto)]

mod desk_calls;
mod lending;

use desk::Session;
use desk::Setting::{Earliest, Latest};
use desk_calls::{HIGHEST, Stage, WORDS, made};
use std::io;
use types::LAST;

// Opening.

// Refused with 6 while a slot is free. A begin made and taken back would show in the next handle.
fn open_badly(d: &mut Stage<impl Print, WORDS>) -> io::Result<()> {
    for (t, width) in [
        (0, 4),
        (LAST + 1, 0),
        (HIGHEST, 0),
        (LAST, 1),
        (1, LAST),
        (4, HIGHEST),
        (HIGHEST, HIGHEST),
    ] {
        d.open(t, width, Earliest)?;
    }
    Ok(())
}

fn opening(d: &mut Stage<impl Print, WORDS>) -> io::Result<()> {
    d.title("opening: 6 before a begin is made, 13 before 6")?;
    d.step("F 2 2 4 8 8")?;
    let a = d.open(1, LAST - 1, Latest)?;
    open_badly(d)?;
    let b = d.open(LAST, 0, Earliest)?;
    d.open(4, 4, Earliest)?;
    open_badly(d)?;
    d.commit(a)?;
    d.commit(b)?;
    Ok(())
}

// Calls that are granted.

fn working(d: &mut Stage<impl Print, WORDS>) -> io::Result<()> {
    d.title("a session that reads, writes and commits at its earliest point")?;
    d.step("F 2 2 4 8 8")?;
    let s = d.open(4, 4, Earliest)?;
    let s = d.read(s, 0)?;
    let s = d.read(s, 0)?;
    let s = d.write(s, 0, 501)?;
    let s = d.read(s, 0)?;
    let s = d.write(s, 0, 502)?;
    let s = d.commit(s)?;
    d.title("it has ended: 3")?;
    d.try_each(s)?;
    d.step("V 0 8")
}

// A version at 4 of record 0 and a lock of another desk on record 1 leave less than is asked.
fn shrinking(d: &mut Stage<impl Print, WORDS>) -> io::Result<()> {
    d.title("the interval shrinks from below and from above, by reads")?;
    let a = d.open(2, 8, Latest)?;
    let a = d.read(a, 0)?;
    let b = d.open(6, 8, Earliest)?;
    let b = d.write(b, 1, 7)?;
    let a = d.read(a, 1)?;
    d.commit(a)?;
    d.title("and by a write; a commit at the latest point")?;
    d.step("L 66 1 18 30 A")?;
    let c = d.open(12, 10, Latest)?;
    let c = d.write(c, 1, 8)?;
    d.commit(c)?;
    d.commit(b)?;
    Ok(())
}

// The interval 4..4 of record 0 has a version on it: the read below it is granted, and nothing of the interval is left.
fn empty_at_version(d: &mut Stage<impl Print, WORDS>) -> io::Result<()> {
    d.title("a read that empties the interval: a version at 4")?;
    d.step("F 2 2 4 8 8")?;
    let a = d.open(4, 0, Earliest)?;
    let a = d.write(a, 0, 501)?;
    d.commit(a)?;
    let b = d.open(3, 1, Latest)?;
    let b = d.read(b, 0)?;
    d.commit(b)?;
    let c = d.open(4, 0, Earliest)?;
    let c = d.read(c, 0)?;
    d.try_each(c)?;
    d.step("A 193 S")
}

// The read stops before the other desk's lock, which lies below the interval. The aborted edit's write and lock go.
fn empty_at_lock(d: &mut Stage<impl Print, WORDS>) -> io::Result<()> {
    d.title("the same: a lock of another desk from 6 on")?;
    let a = d.open(6, 3, Earliest)?;
    let a = d.write(a, 1, 7)?;
    let b = d.open(10, 4, Earliest)?;
    let b = d.write(b, 0, 8)?;
    let b = d.read(b, 1)?;
    d.commit(b)?;
    d.step("W 66 0 9")?;
    let c = d.open(10, 4, Earliest)?;
    let c = d.write(c, 0, 9)?;
    d.commit(c)?;
    d.commit(a)?;
    d.step("V 0 14")
}

// Refusals of the store that are passed on. 6 is not among them: an opening gives an interval within 1..LAST and no
// call widens it, so 6 comes only to a session that no opening gave.

fn refused_edit(d: &mut Stage<impl Print, WORDS>) -> io::Result<()> {
    d.title("no such record; the edit is ended by another call, then gone: 5, 3, 2")?;
    d.step("F 2 2 4 8 8")?;
    let s = d.open(4, 4, Earliest)?;
    d.read(s, 2)?;
    d.write(s, 2, 7)?;
    d.step("A 65 K")?;
    d.try_each(s)?;
    d.step("S 65")?;
    d.try_each(s)?;
    d.title("the same with a commit")?;
    let t = d.open(4, 4, Earliest)?;
    d.step("C 129 4 K")?;
    d.try_each(t)?;
    d.step("S 129")?;
    d.try_each(t)
}

fn refused_held(d: &mut Stage<impl Print, WORDS>) -> io::Result<()> {
    d.title("held: 8")?;
    d.step("F 2 2 4 8 8")?;
    let a = d.open(1, 0, Earliest)?;
    let a = d.write(a, 0, 501)?;
    let b = d.open(1, 3, Latest)?;
    let b = d.read(b, 0)?;
    let b = d.read(b, 1)?;
    d.write(a, 1, 7)?;
    d.commit(a)?;
    let b = d.read(b, 0)?;
    d.commit(b)?;
    Ok(())
}

// Point 1 of record 0 has a version, of record 1 a committed read. No point lies between 1 and the version below it, so
// the read is refused and the interval stays; above, at 4, it was granted and emptied the interval.
fn refused_frozen(d: &mut Stage<impl Print, WORDS>) -> io::Result<()> {
    d.title("frozen: 9")?;
    let s = d.open(1, 0, Earliest)?;
    let s = d.read(s, 0)?;
    let s = d.write(s, 0, 7)?;
    let s = d.write(s, 1, 7)?;
    d.commit(s)?;
    Ok(())
}

fn refused_floor(d: &mut Stage<impl Print, WORDS>) -> io::Result<()> {
    d.title("at or below the floor: 7")?;
    d.step("F 2 2 4 8 8")?;
    let a = d.open(9, 0, Earliest)?;
    let a = d.write(a, 0, 501)?;
    d.commit(a)?;
    let b = d.open(4, 4, Earliest)?;
    let c = d.open(4, 8, Earliest)?;
    d.step("P 0 9")?;
    let b = d.read(b, 0)?;
    let b = d.write(b, 0, 7)?;
    let c = d.write(c, 0, 7)?;
    let c = d.read(c, 0)?;
    let c = d.write(c, 0, 7)?;
    d.commit(c)?;
    let b = d.read(b, 1)?;
    d.commit(b)?;
    Ok(())
}

fn refused_access(d: &mut Stage<impl Print, WORDS>) -> io::Result<()> {
    d.title(
        "no access row: 10; a write keeps the lock that it was granted and the shrunken interval",
    )?;
    d.step("F 2 2 4 15 1")?;
    let s = d.open(4, 4, Latest)?;
    let s = d.read(s, 0)?;
    let s = d.read(s, 1)?;
    d.step("B")?;
    d.step("L 66 1 7 9 A")?;
    let s = d.write(s, 1, 7)?;
    d.step("L 66 1 6 6 A")?;
    let s = d.write(s, 1, 8)?;
    let s = d.write(s, 0, 9)?;
    d.commit(s)?;
    d.step("L 66 1 6 6 A")
}

fn refused_lock(d: &mut Stage<impl Print, WORDS>) -> io::Result<()> {
    d.title("no lock row: 11")?;
    d.step("F 2 2 4 1 15")?;
    let s = d.open(4, 4, Earliest)?;
    let s = d.read(s, 0)?;
    let s = d.read(s, 1)?;
    let s = d.write(s, 0, 7)?;
    let s = d.write(s, 1, 7)?;
    d.commit(s)?;
    Ok(())
}

// A commit that is refused leaves the session open.

fn refused_version(d: &mut Stage<impl Print, WORDS>) -> io::Result<()> {
    d.title("no version row: 12, and after a purge the commit")?;
    d.step("F 2 4 2 8 8")?;
    let a = d.open(2, 0, Earliest)?;
    let a = d.write(a, 0, 501)?;
    d.commit(a)?;
    let b = d.open(3, 0, Earliest)?;
    let b = d.write(b, 0, 502)?;
    d.commit(b)?;
    let c = d.open(4, 4, Latest)?;
    let c = d.write(c, 0, 503)?;
    let c = d.commit(c)?;
    d.step("P 0 3")?;
    d.commit(c)?;
    Ok(())
}

// Calls of the store with the session's handle leave the interval outside the common set.
fn refused_point(d: &mut Stage<impl Print, WORDS>) -> io::Result<()> {
    d.title("the point is not in the common set: 14")?;
    d.step("F 2 2 4 8 8")?;
    let a = d.open(4, 4, Earliest)?;
    d.step("R 65 0 3 A")?;
    let a = d.commit(a)?;
    let a = d.read(a, 0)?;
    d.step("L 65 0 4 8 A")?;
    d.commit(a)?;
    d.title("the common set is empty: nopoint")?;
    let b = d.open(4, 4, Latest)?;
    d.step("W 129 1 7")?;
    let b = d.commit(b)?;
    d.try_each(b)?;
    d.step("S 129")?;
    d.step("V 1 8")
}

// Sessions that no opening gave. Edit 65 is open, and no other.

// Each call with each session.
fn try_sessions(d: &Stage<impl Print, WORDS>, sessions: &[Session]) -> io::Result<()> {
    for s in sessions {
        d.try_each(*s)?;
    }
    Ok(())
}

fn made_ended(d: &Stage<impl Print, WORDS>) -> io::Result<()> {
    d.title("low above high, of any handle: 3")?;
    try_sessions(
        d,
        &[
            made(65, 9, 4, Earliest),
            made(65, HIGHEST, LAST, Latest),
            made(0, 1, 0, Earliest),
            made(HIGHEST, HIGHEST, 0, Latest),
        ],
    )
}

// With low 0 a read is granted, and what is left of the interval starts above the version read; so is a commit at the
// other end.
fn made_low(d: &Stage<impl Print, WORDS>) -> io::Result<()> {
    d.title("low 0, the earliest point named, then the latest")?;
    try_sessions(d, &[made(65, 0, 8, Earliest), made(65, 0, 8, Latest)])?;
    d.title("high 0")?;
    try_sessions(d, &[made(65, 0, 0, Earliest), made(65, 0, 0, Latest)])
}

fn made_high(d: &Stage<impl Print, WORDS>) -> io::Result<()> {
    d.title("high above LAST, the earliest point named, then the latest")?;
    try_sessions(
        d,
        &[
            made(65, 4, LAST + 1, Earliest),
            made(65, 4, LAST + 1, Latest),
            made(65, LAST + 1, HIGHEST, Earliest),
            made(65, 0, HIGHEST, Latest),
        ],
    )
}

// Slot 0, a free slot, a slot out of range, other generations. 2 comes before 6.
fn made_handle(d: &Stage<impl Print, WORDS>) -> io::Result<()> {
    d.title("a handle that was never given: 2")?;
    try_sessions(
        d,
        &[
            made(0, 4, 8, Earliest),
            made(66, 4, 8, Earliest),
            made(67, 4, 8, Earliest),
            made(1, 4, 8, Earliest),
            made(129, 4, 8, Earliest),
            made(HIGHEST, 4, 8, Earliest),
            made(66, 0, HIGHEST, Earliest),
        ],
    )
}

// The width is that of all sessions made here; the interval and the handle are good.
fn made_width(d: &Stage<impl Print, WORDS>) -> io::Result<()> {
    d.title("a width that was never asked for")?;
    try_sessions(d, &[made(65, 4, 8, Earliest), made(65, 4, 8, Latest)])
}

fn hand_made(d: &mut Stage<impl Print, WORDS>) -> io::Result<()> {
    d.title("sessions that no opening gave")?;
    d.step("F 2 2 4 8 8")?;
    d.step("B")?;
    made_ended(d)?;
    made_low(d)?;
    made_high(d)?;
    made_handle(d)?;
    made_width(d)
}

// Two sessions with one handle: what one calls changes the other's edit, but not its interval.

fn share(d: &mut Stage<impl Print, WORDS>) -> io::Result<()> {
    d.title("two sessions with one handle; the first commits")?;
    d.step("F 2 2 4 8 8")?;
    let a = d.open(4, 4, Latest)?;
    d.step("B")?;
    d.step("L 66 1 7 9 A")?;
    let b = a;
    d.say("first: ")?;
    let a = d.read(a, 0)?;
    d.say("second: ")?;
    let b = d.read(b, 0)?;
    d.say("first: ")?;
    let a = d.write(a, 1, 7)?;
    d.say("second: ")?;
    let b = d.read(b, 1)?;
    d.say("second: ")?;
    let b = d.commit(b)?;
    d.say("first: ")?;
    let a = d.commit(a)?;
    share_after(d, a, b)
}

fn share_after(d: &mut Stage<impl Print, WORDS>, a: Session, b: Session) -> io::Result<()> {
    d.say("first: ")?;
    d.commit(a)?;
    d.say("second: ")?;
    d.read(b, 0)?;
    d.say("second: ")?;
    d.write(b, 0, 8)?;
    d.say("second: ")?;
    d.commit(b)?;
    Ok(())
}

// The first has ended and its edit has not.
fn share_ended(d: &mut Stage<impl Print, WORDS>) -> io::Result<()> {
    d.title("two sessions with one handle; the first has ended, the second goes on")?;
    let b = d.open(4, 4, Earliest)?;
    let a = made(129, 1, 0, Earliest);
    d.say("first: ")?;
    d.read(a, 0)?;
    d.say("second: ")?;
    let b = d.read(b, 0)?;
    d.say("first: ")?;
    d.commit(a)?;
    d.say("second: ")?;
    d.commit(b)?;
    Ok(())
}

// A store that is not sound says 1 to an open and to an ended session, and before 13 and 6; every word stays. On the
// sound one each line differs.

fn try_all<const N: usize>(d: &Stage<impl Print, N>, s: Session) -> io::Result<()> {
    d.try_opens()?;
    d.try_each(s)?;
    d.try_each(made(65, 1, 0, Earliest))
}

fn unsound(d: &mut Stage<impl Print, WORDS>) -> io::Result<()> {
    d.title("the sound store, a slot free, then none")?;
    d.step("F 2 2 4 8 8")?;
    let s = d.open(4, 4, Earliest)?;
    let mut free = d.copy();
    try_all(&free, s)?;
    d.step("B")?;
    d.try_opens()?;
    d.title("the same with record count 5000: 1")?;
    free.words[0] = 5000;
    try_all(&free, s)?;
    d.words[0] = 5000;
    d.try_opens()?;
    d.title("the empty slice: 1")?;
    let empty = Stage::new(d.rt, [0u64; 0]);
    try_all(&empty, s)
}

fn granting(d: &mut Stage<impl Print, WORDS>) -> io::Result<()> {
    opening(d)?;
    working(d)?;
    shrinking(d)?;
    empty_at_version(d)?;
    empty_at_lock(d)
}

fn refusing(d: &mut Stage<impl Print, WORDS>) -> io::Result<()> {
    refused_edit(d)?;
    refused_held(d)?;
    refused_frozen(d)?;
    refused_floor(d)?;
    refused_access(d)?;
    refused_lock(d)?;
    refused_version(d)?;
    refused_point(d)
}

fn main(rt: HostRuntime) -> io::Result<()> {
    let mut d = Stage::new(&rt, [0u64; WORDS]);
    granting(&mut d)?;
    refusing(&mut d)?;
    hand_made(&mut d)?;
    share(&mut d)?;
    share_ended(&mut d)?;
    unsound(&mut d)
}
