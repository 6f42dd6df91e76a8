// Theory: the message nearest to the symbols of listed nodes is the only one that near, and where such symbols are wrong.
#![tactic(auto)]
