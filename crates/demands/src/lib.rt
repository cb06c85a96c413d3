// What the user demands, as theorems over the definitions that the promises cite. It has no code.
#![tactic(auto)]
