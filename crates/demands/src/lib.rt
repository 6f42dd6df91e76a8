// The demands and the change requests, of every record and of every call, as theorems over what the calls promise: theory, no code.
#![tactic(auto)]
