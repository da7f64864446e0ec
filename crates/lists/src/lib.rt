// No code: the lists behind the days, and the laws that each notice on the lists is the day book's.
#![tactic(auto)]
