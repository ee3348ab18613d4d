// Soundness holds from start on, whatever happens: theorems alone, no code.
#![tactic(auto)]
