// Cases of flags that last, computed by the checker from the model. No code.
#![tactic(auto)]
