// The starred cases of document 01, computed by the checker from the model. No code.
#![tactic(auto)]
