// The functions of all blocks of one mixed set, output beside output, and the coefficients under the polarities that are chosen. They stand in a crate
// below the search, so that the search over the pairs of M and i is checked without them being proved again.
// The main property, for up to 8 inputs: `expand::expand_blocks` leaves the block functions of M and i, `expand::next_polarity` those of the
// next i; from these `terms::coefficients` hands up the coefficient of each term.
#![tactic(auto)]

pub mod expand;
pub mod sizes;
pub mod terms;
