// Laws over the model's step: what each event changes, and that it changes nothing else (demand 2). No code.
#![tactic(auto)]
