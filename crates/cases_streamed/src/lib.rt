// Nights in pieces, computed by the checker from the model. No code.
#![tactic(auto)]
