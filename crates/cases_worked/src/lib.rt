// Worked cases beside the starred ones, computed by the checker from the model. No code.
#![tactic(auto)]
