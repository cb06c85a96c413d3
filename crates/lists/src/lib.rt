// Lists that contracts and proofs speak of: tables, the filling of a buffer, the first place at which a test holds. It has no code.
#![tactic(auto)]
