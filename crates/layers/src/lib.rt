// No functions: layers above the store as programs of its calls, in specs/ and proofs/. Rests on the crates `types`,
// `meaning`, `serial`, `tables`, `format`, `history` and `store`.
#![tactic(auto)]
