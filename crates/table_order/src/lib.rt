// Demand 3 of the letter: as progress rises, no lookup steps back. This crate has no code: it states
// and proves what follows from the definitions of `table`, in proofs/Theorems.antt.
#![tactic(auto)]
