// What a loss and a delivery change of the bytes of a net: theorems only (specs/ and proofs/).
#![tactic(auto)]
