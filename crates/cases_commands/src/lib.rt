// Cases of command messages, computed by the checker from the model. No code.
#![tactic(auto)]
