// The quotation of a table text, document 02's W-209: products, literals and listing length, with no buffer lent; and what `rmquote` prints.
#![tactic(auto)]

pub mod print;
pub mod quote;
