// Theory only: the least bits that a repair of one node moves in which what each node sends is additive, and how near the repair by traces is.
#![tactic(auto)]
