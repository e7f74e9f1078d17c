// Table texts: the reading call, and what it accepts. The main property: the reading call gives the design and the table that a text means, or
// its first refusal; and a text is accepted exactly where it is the text written for a design and a table within the limits
// (proofs/Exactness).
#![tactic(auto)]

mod first;
pub mod read;
pub mod sizes;
