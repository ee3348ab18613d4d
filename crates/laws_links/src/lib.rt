// One link's word about another (02 Req 13): what is done to the lanes of a set is not seen on any other lane. Theorems over the model; no code.
#![tactic(auto)]
