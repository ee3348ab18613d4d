// Two runs side by side, computed by the checker from the model: that Req 13's theorem is about something, and that what it supposes is needed. No code.
#![tactic(auto)]
