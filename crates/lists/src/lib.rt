// Theory only: definitions and laws of lists and counts.
#![tactic(auto)]
