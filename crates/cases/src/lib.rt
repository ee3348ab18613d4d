// What a case is, which the checker computes from the model; no case, and no code.
#![tactic(auto)]
