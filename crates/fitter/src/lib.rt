// The fitter's check: a listing beside its table text, before the part is fused. The main property, for every pair of byte strings: the check
// says `Same` exactly where some member of the class with the listing's M and i prints that listing and gives the table, `NotOfClass` exactly
// where no such member prints its cubes, and else the lowest point at which the two differ. Beside a `K` table it refuses every listing.
#![tactic(auto)]

pub mod check;
mod class;
pub mod print;
mod values;
