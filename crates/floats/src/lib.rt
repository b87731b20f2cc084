// No code: what proofs know of floats that are not below zero, of their order and of their quotients.
#![tactic(auto)]
