// The list of all the shortest days: its definitions in specs/, their laws in proofs/.
#![tactic(auto)]
