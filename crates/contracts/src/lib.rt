// No code: theorems that each public contract determines what it speaks of.
#![tactic(auto)]
