// Why opening gives back what was sealed: the polynomial that demand 3 speaks of, and the theorems about it. It has no code.
#![tactic(auto)]
