// A line run on the store, by the public calls. The store is the part of the words that is in use; before the first
// Format that succeeds it is empty, and no empty slice is a sound store. Rests on the crates `types`, `meaning`,
// `tables`, `format`, `format_room`, `store`, `replies`, `fields`, `lines` and `rendering`.
#![tactic(auto)]

ghost use Rattle.std.specs.Prelude.{◌≤◌, MatchResult, length};
ghost use Rattle.lines.specs.Calls.{parsed};
ghost use Rattle.answers.specs.Script.{Answers, LaidOut, Refused, said};

use fields::Command;
use format_room::words_for;
use lines::parse;
use rendering::line_of_answer;
use replies::Line;
use store::perform;
use types::{Counts, Refusal};

// The line to print, and how many words are in use after it.
// Kept: the words are the caller's slice; a struct over them would have each contract promise that it stays
// (Rattle's docs/BORROWS.md).
#[derive(Clone, Copy)]
pub struct Answered {
    pub line: Line,
    pub used: usize,
}

// Format: how many words the store has that it lays out.
// Kept: the words and the counts are what Format takes.
fn lay_out(words: &mut [u64], c: Counts) -> Result<usize, Refusal>
    ensures { MatchResult result (LaidOut c words.old words.new) (Refused c words.old words.new) }
{
    let n = words_for(c, words.len());
    format::format(&mut words[..n], c)?;
    Ok(n)
}

// What a line prints, and how many words are in use after it: as many as before, if it lays out no store.
// Kept: the words stay the caller's, who knows after the call what each of them is; and the cases of Format decide
// how many are in use, too: with `replies::line_of_done` its result would be taken apart twice.
pub fn answer(words: &mut [u64], used: usize, line: &[u8]) -> Answered
    requires { used ≤ length words.old }
    ensures { Answers (said (length words.old) (parsed line.now)) words.old used result.line
        words.new result.used }
{
    match parse(line) {
        None => Answered {
            line: Line::Malformed,
            used,
        },
        Some(Command::Format(c)) => match lay_out(words, c) {
            Ok(n) => Answered {
                line: Line::Ok,
                used: n,
            },
            Err(r) => Answered {
                line: Line::from(r),
                used,
            },
        },
        Some(Command::Call(call)) => Answered {
            line: line_of_answer(perform(&mut words[..used], call)),
            used,
        },
    }
}
