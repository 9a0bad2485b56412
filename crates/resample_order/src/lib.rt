// Demand 3 for a resampled line: its points stand on the line in order. This crate has no code: it states and proves what follows
// from the contract of `resample`, in proofs/Theorems.antt.
#![tactic(auto)]
