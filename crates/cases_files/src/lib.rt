// Whole night files, computed by the checker from the model. No code.
#![tactic(auto)]
