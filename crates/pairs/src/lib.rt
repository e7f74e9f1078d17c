// Tries every M and i of one class and family, and returns the first cheapest pair. The main property: `leader::first_least` hands up the first pair of
// least charge, and its charge.
#![tactic(auto)]

pub mod leader;
