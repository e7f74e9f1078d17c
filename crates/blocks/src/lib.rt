// The block table of document 01 and the table of document 02's free class, as constants, and their rows as words. They stand in a crate of their own, so
// that what searches by them is checked without the entries being computed again.
#![tactic(auto)]

pub mod block_table;
pub mod own_table;
pub mod rows;
