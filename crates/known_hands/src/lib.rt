// The known hands P1 to P11: what is claimed of them is in specs/, and proofs/ evaluates it through rules, scores and search.
#![tactic(auto)]
