// Proofs only: sender and receiver meet again after any loss, over the calls of set-up, reset and feed.
#![tactic(auto)]
