// Worked examples of numbers and ramps from motor sheets: specs/ has the tables, proofs/Examples the proof.
#![tactic(auto)]
