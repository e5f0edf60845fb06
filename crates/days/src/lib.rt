// Worked days that are shown of the definitions, of documents 01 and 02: the lists in specs/, the theorems in proofs/.
#![tactic(auto)]
