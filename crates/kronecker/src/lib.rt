// Kronecker expansions, document 02's W-202: "each input taken the Shannon way (every term has it, plain or complemented) or either Davio way".
// This is the search over all 3^n kinds. The main property, for every table of 1 to 8 inputs and 1 to 8 outputs: `answer::find_kronecker` hands
// up the expansion that gives the table at every point with the fewest products, then the fewest literals, then the letters that come
// first; every other expansion of these kinds that gives the table costs at least as much.
#![tactic(auto)]

pub mod answer;
pub mod expansion;
pub mod letter;
mod step;
mod walk;
mod weigh;
