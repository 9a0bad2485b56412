// Strict implies permissive: a text that matches the grammar of an edition is read by the permissive
// reader, which refuses it for nothing but want of room. There is no code here: specs/ has the
// statement, proofs/ the theorem.
#![tactic(auto)]
