// What the rows of a listing show. The main property: the counts, the coefficients, the complemented inputs and the choices of the blocks are those that
// specs/Rows reads off the rows.
#![tactic(auto)]

pub mod shown;
