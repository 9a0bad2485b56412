// That a length is what document 02 (L9) asks for in words: the nearest f64 to the root of the f64 sum
// of the squares, and the nearest f32 to that. There is no code here: specs/ has the record, proofs/ the
// theorem over `length_of`, and that one value meets it.
#![tactic(auto)]
