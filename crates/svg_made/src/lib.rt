// Of what each command of a text is made: the meaning of its letter, for every kind of command, and the
// nearest values of the numbers after it. There is no code here: specs/ has the statement, proofs/ the
// theorem over what the permissive reader stores.
#![tactic(auto)]
