// From the table of an accepted text to the record of its answer, which the calls on table texts write, quote or fuse.
// The main property: the record is the answer's, of the class or of the Kronecker expansions.
#![tactic(auto)]

pub mod answers;
