// No code: the places of the register table, its soundness, and the laws of both.
#![tactic(auto)]
