// The limits of the documents, in one place: every judge reads them here. Document 01: "tables of n inputs (1 to 8) and m outputs (1 to 8), with k
// mixed inputs (0 to 3, at most n)". Document 02, W-207: "`f` with a digit above 2 or above n is refusal 4".
#[derive(Clone, Copy)]
pub struct Limits;

impl Limits {
    // The most inputs of a table.
    pub const INPUTS: usize = 8;

    // The most outputs.
    pub const OUTPUTS: usize = 8;

    // The most mixed inputs of document 01's class; there are at most n.
    pub const MIXED: usize = 3;

    // The most mixed inputs of the free class; there are at most n.
    pub const FREE_MIXED: usize = 2;

    // The most points, and the most terms: a place for each, of as many inputs as there can be.
    pub const PLACES: usize = 1 << Limits::INPUTS;
}
