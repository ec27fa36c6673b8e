// Document 01's twelve cases: specs/ has the table, proofs/ the theorem that each case holds. No code.
#![tactic(auto)]
