// Theory only: linear algebra and polynomials over every field.
#![tactic(auto)]
