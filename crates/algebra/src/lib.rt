// The algebra of document 01, "Points, terms and polarities": a table and its Reed-Muller coefficients in a polarity.
// The main property, for every table f of at most 8 inputs and every polarity w: the coefficients that `transform::coefficients_into` fills have the value f
// at every point (equation (1) of document 003), for all outputs together, and `transform::values_into` takes them back to f.
#![tactic(auto)]

pub mod transform;
