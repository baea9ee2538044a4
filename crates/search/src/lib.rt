// The search: its definition and what is true of it are in specs/ and proofs/; its code comes on top of them.
#![tactic(auto)]
