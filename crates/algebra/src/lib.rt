// The ring of polynomials folded by x^n = x^(n/2) - 1, its transform and the theorems about them. It has no code.
#![tactic(auto)]
