// The two parts of a number, its bits at the inputs of a mask and those at the inputs outside it: block and place of a point or a term, and
// the way back. The main property, for up to 8 inputs and every mask: `split::split` closes the bits outside the mask and those in it up, lowest
// first, so that the two joined give the number back (`IsSplit` of `expansions`), `split::gather` closes up those in it alone (`ClosedUp`),
// `split::spread` opens them out again (`OpenedOut`), and `ascending::next_point` goes from one number opened out to the next. The functions
// stand in a crate below the search, so that whatever else goes by blocks calls the same ones.
#![tactic(auto)]

pub mod ascending;
pub mod split;
