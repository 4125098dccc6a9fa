// No code: the examples of the book told of bytes, a worked plan, and the words of the C face read back (specs/ and proofs/).
#![tactic(auto)]
