// Public calls, a list of events and a night file say the same, as theorems over the model: the statement is in specs/, the proof in proofs/. No code.
#![tactic(auto)]
