// Calls of firmware and calls of the registers give the same, as a theorem over the model: the statement is in specs/, the proof in proofs/. No code.
#![tactic(auto)]
