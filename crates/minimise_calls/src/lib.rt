// The minimising call of document 01, on a table and two lent buffers.
// The main property, for every table of 1 to 8 inputs and 1 to 8 outputs: what `calls::minimise` leaves in the lent buffers is a member of
// the class that, with the outputs of the returned mask inverted, gives the table at every point, and every other member that gives it, with whatever
// outputs inverted, costs at least as much.
#![tactic(auto)]

pub mod calls;
