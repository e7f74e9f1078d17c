// The calls on numbers and byte slices, exported for programs in C and Rust. A slice is a pointer and a count of bytes. Each call leaves its
// answer in a few lent numbers, first document 01's refusal number and line, 0 and 0 where it was carried out.
#![tactic(auto)]

pub mod check;
pub mod minimise;
pub mod quote;
pub mod table_text;
pub mod transforms;
