// The customer's three demands, over calls through the C boundary: specs/ states them, proofs/ holds them. There is no code here.
#![tactic(auto)]
