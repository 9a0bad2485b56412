// Which texts convert to a number, by the public grammar of decimal floating-point text, and that the
// scan passes those and no others: what 4 means. There is no code here: specs/ has the grammar,
// proofs/ the theorems.
#![tactic(auto)]
