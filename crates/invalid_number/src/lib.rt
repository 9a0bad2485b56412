// That 4 has one cause, through every entry that reads a text: an exponent without a digit, and the
// offset is that of its e. There is no code here: proofs/ has the theorems.
#![tactic(auto)]
