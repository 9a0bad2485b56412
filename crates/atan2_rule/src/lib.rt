// Atan2: the rule that an answer keeps and the definition by steps, both in specs/. The laws in
// proofs/ show that the steps keep the rule, for every pair of f32. There is no code here: it stands
// in the crate `atan2`.
#![tactic(auto)]
