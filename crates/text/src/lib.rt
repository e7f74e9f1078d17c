// The text layer's calls: from a table text to the listing of the answer, and to what the program prints.
#![tactic(auto)]

pub mod compile;
pub mod print;
