// Lists by places: definitions in specs/ and their laws in proofs/, for the crates above. No code.
#![tactic(auto)]
