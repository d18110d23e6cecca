// Script lines: one line of bytes read as a call, or found to be of another form. Nothing here knows a store. `parsing`
// reads a line, field by field. Each function is proved against specs/. Rests on the crates `types`, `meaning`,
// `replies`, `texts` and `fields`.
#![tactic(auto)]

mod parsing;

pub use parsing::parse;

// A line "over 200 bytes" is malformed (document 01).
pub const LONGEST: usize = 200;
