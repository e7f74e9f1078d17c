// What each block of a member costs, from the functions of all blocks that the crate `lanes` holds. The main property: `cheapest::cheapest_first`, for
// block 0, and `cheapest::cheapest_block`, for the others, hand up the first least choice of a block, and its charge.
#![tactic(auto)]

pub mod cheapest;
