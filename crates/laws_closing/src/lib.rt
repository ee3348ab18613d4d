// Nine work steps at most, over any public calls: a group in progress closes, whatever is called between its steps. No code.
#![tactic(auto)]
