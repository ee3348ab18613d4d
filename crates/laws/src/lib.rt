// Laws over the model: every input is answered, a file 9 exactly where it has a fault, a refusal changes nothing, and a call's contract admits one outcome. No code.
#![tactic(auto)]
