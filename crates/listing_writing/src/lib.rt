// Listings written into a lent buffer, those of the classes with mixed inputs and those of Kronecker expansions. A listing's length is known before its first
// byte is written, so a buffer that is too short is left as it was. The main property: the bytes written are the listing, and the bytes past them
// are as they were.
#![tactic(auto)]

pub mod form;
pub mod kron;
pub mod letters;
mod terms;
