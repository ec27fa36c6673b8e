// Proofs only: sender and receiver meet again after any loss, as a caller of the library for C sees it.
#![tactic(auto)]
