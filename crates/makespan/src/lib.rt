// The makespan: the least end of the accepted plans, as a definition in specs/, its laws in proofs/.
#![tactic(auto)]
