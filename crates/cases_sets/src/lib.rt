// Worked cases of the second staged set, computed by the checker from the model. No code.
#![tactic(auto)]
