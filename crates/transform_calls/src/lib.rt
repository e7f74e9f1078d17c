// The transform calls of document 01, on a table and its Reed-Muller coefficients in a polarity.
// The main property, for every table f of 1 to 8 inputs and every polarity w: the coefficients that `calls::forward` fills have the value f
// at every point (equation (1) of document 003), for all outputs together, and `calls::backward` takes them back to f.
#![tactic(auto)]

pub mod calls;
