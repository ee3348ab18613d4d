// What each change of the image leaves of each register: theorems alone, no code.
#![tactic(auto)]
