// Proofs only: what holds of a directory that FIBs are read into.
#![tactic(auto)]
