// The theory of weighted covers: definitions in specs/, laws in proofs/. It has no code.
#![tactic(auto)]
