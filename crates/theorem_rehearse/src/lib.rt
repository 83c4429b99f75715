// Theorems only: what one stream does on a small desk and on a large one. The statements are in specs/, the proofs in proofs/.
#![tactic(auto)]
