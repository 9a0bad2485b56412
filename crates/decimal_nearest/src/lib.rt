// That the value of a decimal number is the nearest: IEEE 754's words over what `decimal` answers, in
// whole numbers of 2^-149. There is no code here: specs/ has the record, proofs/ the theorem, that
// one value meets it, and what it forbids.
#![tactic(auto)]
