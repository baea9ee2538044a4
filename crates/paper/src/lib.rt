// Lines on paper: what was written reads back, and what was read is written again (proofs/). There is no code here.
#![tactic(auto)]
