// The standard's definitions. No code: see specs/, and proofs/ for the laws about them.
#![tactic(auto)]
