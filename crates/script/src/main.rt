// The script program: standard input has one call a line, and each line is answered by one line on standard output. It
// runs the public calls of the store. It reads and writes in blocks, and its memory does not grow with the input. A
// read or a write that fails ends it with that error. Rests on the crates `lines`, `gathering`, which holds bytes in
// memory of a fixed size, and `answers`, which runs a line on the store. This file reads blocks; `words` has those of
// the store, and `output` collects what is to be written.
#![tactic(auto)]

mod output;
mod words;

use gathering::Bytes;
use output::{BUFFER, Output};
use std::io;
use std::io::Read;
use words::Store;

const NEWLINE: u8 = b'\n';

// What is kept of a line: one byte more than a call can have, so that a line that is cut off is malformed too.
const KEPT: usize = lines::LONGEST + 1;

// Between two bytes of input: the store, the bytes of the line that has begun, and those that wait to be written.
#[derive(Drop)]
struct Script {
    store: Store,
    line: Bytes<KEPT>,
    out: Output,
}

impl Script {
    fn new() -> Self {
        Script {
            store: Store::new(),
            line: Bytes::new(),
            out: Output::new(),
        }
    }

    // Answers the line that has ended.
    fn end_line(&mut self, rt: &impl Print) -> io::Result<()> {
        let reply = self.store.answer(self.line.bytes());
        self.line.clear();
        self.out.line(rt, reply)
    }

    // Answers the lines that end in what came, and writes the answers.
    fn take(&mut self, rt: &impl Print, block: &[u8]) -> io::Result<()> {
        for b in block {
            if *b == NEWLINE {
                self.end_line(rt)?;
            } else {
                self.line.gather(*b);
            }
        }
        self.out.flush(rt)
    }

    // Reads to the end of the input. A proved loop has to end, and nothing says that the input does: the turns are as
    // many as no run uses up.
    fn take_all<I: Read>(&mut self, rt: &impl Print, input: &mut I) -> io::Result<()> {
        let mut block = [0u8; BUFFER];
        for _ in 0..u64::MAX {
            let n = input.read(&mut block)?;
            if n == 0 {
                break;
            }
            self.take(rt, &block[..n])?;
        }
        // a last line without a newline is a line
        if !self.line.bytes().is_empty() {
            self.end_line(rt)?;
        }
        self.out.flush(rt)
    }
}

fn main(rt: HostRuntime) -> io::Result<()> {
    let mut input = rt.stdin();
    Script::new().take_all(&rt, &mut input)
}
