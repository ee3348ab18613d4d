// Cases of paths and hardware events, computed by the checker from the model. No code.
#![tactic(auto)]
