// Demand 3 as a theorem over the model: the statement is in specs/, the proof in proofs/. No code.
#![tactic(auto)]
