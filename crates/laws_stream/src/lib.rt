// The night in pieces, as theorems over the model: what is printed for any bytes, however they are cut. The statements are in specs/ and proofs/. No code.
#![tactic(auto)]
