// A net of version 2 in bytes, as a form: definitions and laws, no code.
#![tactic(auto)]
