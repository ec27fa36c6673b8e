// Proofs only: a block of the FIC that was heard clean gives the three FIBs that were sent.
#![tactic(auto)]
