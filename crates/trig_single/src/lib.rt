// Laws of f64 that hold whole numbers: their differences and products, and the f32 nearest to one. No
// code.
#![tactic(auto)]
