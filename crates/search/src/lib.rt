// The second layer, the search: it finds the cheapest member of a class of expansions, as a record.
// The main property, for each class and family and every table of 1 to 8 inputs and 1 to 8 outputs: the record that `answer::find_answer` hands out is that
// of the answer. The functions of the blocks and the coefficients are computed in the crate `lanes`, what each block costs in the crate `charges`, and the
// pairs of M and i are tried in the crate `pairs`.
#![tactic(auto)]

pub mod answer;
pub mod expansion;
mod found;
pub mod polarity;
