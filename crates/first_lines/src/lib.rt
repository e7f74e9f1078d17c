// The first line of a `form` or a `form2` listing, written into a lent buffer. The main property: `first::write_form` writes the line, and the bytes past it
// are as they were.
#![tactic(auto)]

pub mod first;
