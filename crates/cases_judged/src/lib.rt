// Worked cases of groups, triggers and verdicts, computed by the checker from the model. No code.
#![tactic(auto)]
