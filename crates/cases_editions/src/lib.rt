// Cases of the night file's editions, computed by the checker from the model. No code.
#![tactic(auto)]
