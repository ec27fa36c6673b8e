// The trellis as document 01 has it. No code: see specs/, and proofs/ for the laws about it.
#![tactic(auto)]
