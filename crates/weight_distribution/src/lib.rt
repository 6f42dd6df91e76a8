// How many messages have a word of each Hamming weight: theory, no code.
#![tactic(auto)]
