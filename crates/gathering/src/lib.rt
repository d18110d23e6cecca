// Bytes gathered in a lent buffer, or in memory of a fixed size: a line that has begun, or what is to be written. Rests
// on nothing.
#![tactic(auto)]

ghost use Rattle.std.specs.Prelude.{◌≤◌, ◌≡◌, ◌++◌, ℕ, List, [], length, take};
ghost use Rattle.gathering.specs.Gathered.{gathered};

use std::fmt;
use std::marker::Model;

// Puts one more byte after the held ones, if the buffer has room for it, and answers how many are held.
// Kept: it was public over a buffer of any length; `Bytes` would ask callers for memory of its own size.
pub fn gather(line: &mut [u8], held: usize, b: u8) -> usize
    requires { held ≤ length line.old }
    ensures { (result ≤ length line.new)
        × (take result line.new ≡ gathered (length line.old) (take held line.old) b) }
{
    if line.len() <= held {
        return held;
    }
    line[held] = b;
    held + 1
}

// The bytes that are held, of N at most.
#[derive(Drop)]
pub struct Bytes<const N: usize> {
    memory: [u8; N],
    held: usize,
}

impl<const N: usize> Model for Bytes<N> {
    ghost Value = { List ℕ };

    ghost view = { λ b. take b.held b.memory };

    ghost invariant = { λ b. b.held ≤ N };
}

impl<const N: usize> Bytes<N> {
    pub fn new() -> Self
        ensures { result ≡ [] }
    {
        Bytes {
            memory: [0; N],
            held: 0,
        }
    }

    pub fn bytes(&self) -> &[u8]
        ensures held { result.now ≡ self.now }
        ensures inside { length result.now ≤ N }
    {
        &self.memory[..self.held]
    }

    pub fn clear(&mut self)
        ensures { self.new ≡ [] }
    {
        self.held = 0;
    }

    // Puts one more byte after the held ones, if there is room for it.
    pub fn gather(&mut self, b: u8)
        ensures { self.new ≡ gathered N self.old b }
    {
        self.held = gather(&mut self.memory, self.held, b);
    }

    // Puts bytes after the held ones, as many as there is room for.
    pub fn append(&mut self, bytes: &[u8])
        ensures { self.new ≡ take N (self.old ++ bytes.now) }
    {
        let n = bytes.len().min(N - self.held);
        let end = self.held + n;
        let memory = &mut self.memory[..];
        memory[self.held..end].copy_from_slice(&bytes[..n]);
        self.held = end;
    }
}

// A text that there is no room for is refused.
impl<const N: usize> fmt::Write for Bytes<N> {
    ghost write_str_gives = { λ old s new. new ≡ old ++ s };

    fn write_str(&mut self, s: &str) -> fmt::Result {
        if N - self.bytes().len() < s.len() {
            return Err(fmt::Error);
        }
        self.append(s.as_bytes());
        Ok(())
    }
}
