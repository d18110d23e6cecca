// For programs that show what calls did: whether any word moved, asked and printed. Rests on nothing.
#![tactic(auto)]

ghost use Rattle.std.specs.Prelude.{Some};

use std::fmt;

// The words before a call and after it.
#[derive(Clone, Copy)]
pub struct Moved<'a> {
    pub before: &'a [u64],
    pub after: &'a [u64],
}

impl Moved<'_> {
    ghost use Rattle.console.specs.Words.{Moved as Moved·of};

    // Whether the words after are others than those before.
    pub fn any(self) -> bool
        ensures { Moved·of self.entry.before.now self.entry.after.now result }
    {
        self.before != self.after
    }
}

impl fmt::Display for Moved<'_> {
    ghost use Rattle.console.specs.Words.{moved_text};

    ghost output = { λ m. Some (moved_text m.before.now m.after.now) };

    fn fmt<W: fmt::Write>(&self, f: &mut fmt::Formatter<W>) -> fmt::Result {
        f.write_str(if self.any() {
            "words moved"
        } else {
            "no word moved"
        })
    }
}
