// A feed of a night in pieces, byte after byte, and its laws: what it took is what was fed, and feeds join. No code.
#![tactic(auto)]
