// Regression: definitions of the backward search in specs/, their laws in proofs/.
#![tactic(auto)]
