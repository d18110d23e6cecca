// What the store means is said in specs/ and proved in proofs/: this crate has no code. Rests on the crate `types`.
#![tactic(auto)]
