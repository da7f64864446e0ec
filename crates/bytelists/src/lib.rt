// No code: the claim about every list of calls through the hub.
#![tactic(auto)]
