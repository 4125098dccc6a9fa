// The net that bytes show, and the bytes of a net: definitions and laws, no code.
#![tactic(auto)]
