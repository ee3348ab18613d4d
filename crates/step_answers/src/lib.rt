// Laws of the steps: what each kind of event is answered, by the tests that the code makes, and the outcome that follows. No code.
#![tactic(auto)]
