// The classes of expansions, in definitions and laws: members, what they cost by the rule of each family, the order of answers, and the answer as a
// function; and in code the kinds of k, and the part families with the weights of their rules. The main property (proofs/Answers,
// proofs/Kronecker/Answers): the function's result is the expansion that gives the table and comes first, and the only one.
#![tactic(auto)]

pub mod families;
pub mod kinds;
pub mod numbered;
