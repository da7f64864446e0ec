// No code: the claim about every list of calls.
#![tactic(auto)]
