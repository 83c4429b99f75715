// Demand 2, second sentence: what is written reads back as the same show, with no report. Theorems only: specs/ states, proofs/ proves.
#![tactic(auto)]
