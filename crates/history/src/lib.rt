// No functions: the crate is the theory in specs/ and proofs/. Rests on the crates `types`, `meaning`, `serial`,
// `chains`, `tables` and `format`.
#![tactic(auto)]
