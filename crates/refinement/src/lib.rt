// Refinement as definitions and laws: the definitions are in specs/, the laws in proofs/.
#![tactic(auto)]
