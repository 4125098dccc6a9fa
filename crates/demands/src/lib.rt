// Demand 3 over bytes: theorems only (specs/ and proofs/).
#![tactic(auto)]
