// No functions: the clauses of soundness as the check tests them are in specs/, their laws in proofs/. Rests on the
// crates `types`, `meaning`, `chains` and `tables`.
#![tactic(auto)]
