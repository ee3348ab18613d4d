// Module states, the low-power line and resets: both sides of each line, computed by the checker from the model. No code.
#![tactic(auto)]
