// Earliest times: definitions in specs/, their laws in proofs/.
#![tactic(auto)]
