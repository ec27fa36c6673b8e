// The transmitter's model: what a sender puts on the air for any FIC data and any frames. No code: see specs/, and proofs/ for the laws about it.
#![tactic(auto)]
