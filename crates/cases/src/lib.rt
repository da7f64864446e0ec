// No code: the marked cases of document 01 as theorems about the definitions.
#![tactic(auto)]
