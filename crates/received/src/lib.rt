// What a caller receives, over the contracts alone: demand 3 at the places of the outputs of a batch, the
// position and the heading of a flight beside those of its segment, and the progress of each station.
// There is no code here: specs/ has what the theorems speak of, proofs/ the theorems.
#![tactic(auto)]
