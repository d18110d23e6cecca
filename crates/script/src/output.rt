// What is to be written, collected in a buffer, so that one write takes many lines. Rests on the crates `gathering`,
// `replies` and `printing`.
ghost use Rattle.std.specs.Prelude.{◌≡◌, ℕ, List, [], OnOk};
ghost use Rattle.script.specs.Run.{collected, with_room};

use gathering::Bytes;
use printing::{WIDTH, print};
use replies::Line;
use std::io;
use std::marker::Model;

// The bytes that are collected before they are written, and as many are read at once.
pub const BUFFER: usize = 65536;

// A line with its newline.
const WHOLE: usize = WIDTH + 1;

// Up to here a line of any length, with its newline, still fits into the buffer.
const LAST_START: usize = BUFFER - WHOLE;

// The bytes that wait to be written.
#[derive(Drop)]
pub struct Output {
    ready: Bytes<BUFFER>,
}

impl Model for Output {
    ghost Value = { List ℕ };

    ghost view = { λ o. o.ready };
}

impl Output {
    pub fn new() -> Self
        ensures { result ≡ [] }
    {
        Output {
            ready: Bytes::new(),
        }
    }

    // Writes what waits.
    // Kept: the library's BufWriter takes its buffer from an allocator, and there is none here.
    pub fn flush(&mut self, rt: &impl Print) -> io::Result<()>
        ensures { OnOk result (self.new ≡ []) }
    {
        rt.write_all(self.ready.bytes())?;
        self.ready.clear();
        Ok(())
    }

    // Writes what waits, where there might be no room for another line.
    fn make_room(&mut self, rt: &impl Print) -> io::Result<()>
        ensures { OnOk result (self.new ≡ with_room self.old) }
    {
        if LAST_START < self.ready.bytes().len() {
            return self.flush(rt);
        }
        Ok(())
    }

    // Collects the line of a reply after the bytes that wait.
    pub fn line(&mut self, rt: &impl Print, l: Line) -> io::Result<()>
        ensures { OnOk result (self.new ≡ collected self.old l) }
    {
        let mut text = [0; WIDTH];
        let n = print(l, &mut text);
        self.make_room(rt)?;
        self.ready.append(&text[..n]);
        self.ready.gather(b'\n');
        Ok(())
    }
}
