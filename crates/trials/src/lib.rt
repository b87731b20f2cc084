// The trials of document 01 that are marked to be proved: specs/Trials has the table, proofs/Trials the proof.
#![tactic(auto)]
