// Theory only: what a scheme is, the least writes and reads of any scheme, and what every plain layout costs.
#![tactic(auto)]
