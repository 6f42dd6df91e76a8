// Theory only: where the symbols of a buffer of rows and lanes stand, and symbols of one byte or more.
#![tactic(auto)]
