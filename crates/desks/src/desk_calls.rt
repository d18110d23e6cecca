// A call of the desk, or of the store, made and printed: what it told, the interval left after it and whether any word
// of the store moved. `lending` lends the call its session. Rests on `desk` and, for the text of calls and replies, on
// `answers`, `rendering` and `console`.
use answers::answer;
use console::Moved;
use desk::{Session, Setting};
use rendering::line_of_answer;
use std::io;
use types::{Granted, Handle, Point, Refusal};

// Every store here has as many words, whatever its counts.
pub const WORDS: usize = 118;

// The highest number that a word holds.
pub const HIGHEST: u64 = u64::MAX;

// A store, and where what its calls do is printed. The empty slice is the one of no words.
// Kept: `damage`, `generations` and `refusals` have one too; on a struct of a library `open` could be no method.
#[derive(Drop)]
pub struct Stage<'a, R, const N: usize> {
    pub rt: &'a R,
    pub words: [u64; N],
}

// A session that no opening gave. Its width is never looked at.
// Kept: the scenes give numbers; over points each of their many calls would say `Point::from` twice.
pub fn made(handle: u64, low: u64, high: u64, setting: Setting) -> Session {
    Session {
        handle: Handle::from(handle),
        low: Point::from(low),
        high: Point::from(high),
        width: HIGHEST,
        setting,
    }
}

impl<'a, R, const N: usize> Stage<'a, R, N> {
    pub fn new(rt: &'a R, words: [u64; N]) -> Self {
        Stage { rt, words }
    }
}

impl<R: Print, const N: usize> Stage<'_, R, N> {
    pub fn title(&self, text: &str) -> io::Result<()> {
        println!(self.rt; "-- {text}")
    }

    pub fn say(&self, text: &str) -> io::Result<()> {
        print!(self.rt; "{text}")
    }

    // A call of the store itself, or a Format.
    // Kept: `generations` and `refusals` have the two statements too; one function of three arguments would be as long.
    pub fn step(&mut self, line: &str) -> io::Result<()> {
        let reply = answer(&mut self.words, N, line.as_bytes()).line;
        println!(self.rt; "{line}: {reply}")
    }

    fn print_reply(&self, reply: Result<Granted, Refusal>) -> io::Result<()> {
        print!(self.rt; "{}", line_of_answer(reply))
    }

    // The interval left, which is empty once the session has ended, and what no call may change: nothing is printed if
    // it stayed.
    // Kept: it tells two sessions apart, of which no one value is printed.
    fn print_session(&self, s: Session, after: Session) -> io::Result<()> {
        let low = u64::from(after.low);
        let high = u64::from(after.high);
        print!(self.rt; "; {low}..{high}")?;
        if high < low {
            print!(self.rt; " ended")?;
        }
        if s.handle != after.handle {
            print!(self.rt; "; another handle")?;
        }
        if s.width != after.width {
            print!(self.rt; "; another width")?;
        }
        if s.setting != after.setting {
            print!(self.rt; "; another setting")?;
        }
        Ok(())
    }

    // Whether a word moved, and the end of the line; the empty slice has none that could.
    // Kept: what is said of the words is the Display of `Moved`; this ends a line.
    fn print_moved(&self, before: &[u64; N]) -> io::Result<()> {
        if N > 0 {
            let after = &self.words;
            print!(self.rt; "; {}", Moved { before, after })?;
        }
        println!(self.rt)
    }

    // What a call with a session told, which is None where a read emptied the interval, and the session after it.
    fn print_step(
        &self,
        before: &[u64; N],
        s: Session,
        after: Session,
        reply: Result<Option<Granted>, Refusal>,
    ) -> io::Result<Session> {
        match reply {
            Ok(Some(given)) => self.print_reply(Ok(given))?,
            Ok(None) => print!(self.rt; "emptied")?,
            Err(no) => self.print_reply(Err(no))?,
        }
        self.print_session(s, after)?;
        self.print_moved(before)?;
        Ok(after)
    }

    // Each call of the desk answers the session after it.

    // The session is that asked for; an ended one of no edit if there is none.
    pub fn open(&mut self, t: u64, width: u64, setting: Setting) -> io::Result<Session> {
        let pick = match setting {
            Setting::Earliest => "earliest",
            Setting::Latest => "latest",
        };
        print!(self.rt; "open {t} {width} {pick}: ")?;
        let before = self.words;
        let reply = desk::open(&mut self.words, Point::from(t), width, setting);
        match reply {
            Ok(s) => {
                self.print_reply(Ok(Granted::Edit(s.handle)))?;
                let asked = Session {
                    width,
                    setting,
                    ..s
                };
                self.print_session(asked, s)?;
            }
            Err(no) => self.print_reply(Err(no))?,
        }
        self.print_moved(&before)?;
        // Kept: over an Option each scene would have to open it, also where what it shows is what follows a refusal.
        Ok(reply.unwrap_or(made(0, 1, 0, Setting::Earliest)))
    }

    // Kept: `read`, `write` and `commit` name a step of a scene each; what they share is `print_step`.
    pub fn read(&mut self, s: Session, rec: u64) -> io::Result<Session> {
        print!(self.rt; "{} read {rec}: ", u64::from(s.handle))?;
        let before = self.words;
        let step = crate::lending::read(&mut self.words, s, rec);
        let reply = step.reply.map(|found| found.map(Granted::Read));
        self.print_step(&before, s, step.session, reply)
    }

    // Kept: the same.
    pub fn write(&mut self, s: Session, rec: u64, value: u64) -> io::Result<Session> {
        print!(self.rt; "{} write {rec} {value}: ", u64::from(s.handle))?;
        let before = self.words;
        let step = crate::lending::write(&mut self.words, s, rec, value);
        let reply = step.reply.map(|()| Some(Granted::Done));
        self.print_step(&before, s, step.session, reply)
    }

    // Kept: the same.
    pub fn commit(&mut self, s: Session) -> io::Result<Session> {
        print!(self.rt; "{} commit: ", u64::from(s.handle))?;
        let before = self.words;
        let step = crate::lending::commit(&mut self.words, s);
        let reply = step.reply.map(|point| Some(Granted::Commit(point)));
        self.print_step(&before, s, step.session, reply)
    }

    // The same store again, for a call that shall not change this one.
    pub fn copy(&self) -> Self {
        Stage::new(self.rt, self.words)
    }

    // Each call on a copy of the words of its own.
    pub fn try_each(&self, s: Session) -> io::Result<()> {
        self.copy().read(s, 0)?;
        self.copy().write(s, 0, 7)?;
        self.copy().commit(s)?;
        Ok(())
    }

    pub fn try_opens(&self) -> io::Result<()> {
        self.copy().open(4, 4, Setting::Earliest)?;
        self.copy().open(0, 4, Setting::Earliest)?;
        self.copy().open(4, HIGHEST, Setting::Latest)?;
        Ok(())
    }
}
