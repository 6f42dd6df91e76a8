// Theory: bytes carried in symbols of a field. Words of 16 binary digits go in groups, each behind a mask under which all of them are symbols. No code.
#![tactic(auto)]
