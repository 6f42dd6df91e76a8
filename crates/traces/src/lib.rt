// Theory only: the traces of the field of 256 elements, and the repair of one node from a few bits of each other node.
#![tactic(auto)]
