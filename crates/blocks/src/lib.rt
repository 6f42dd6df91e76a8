// Theory only: blocks of lanes over an accepted plan, and the answers of the calls.
#![tactic(auto)]
