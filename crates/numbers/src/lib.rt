// What every layer rests on: numbers, bits, lists and sums (specs/ and proofs/), the limits, and what every call judges alike. The main property: one
// function gives the refusal of the sizes n, m and k for all calls, in document 01's order.
#![tactic(auto)]

pub mod limits;
pub mod places;
pub mod refusals;
