// What the search carries with it.
ghost use Rattle.std.specs.Prelude.{◌≤◌};
ghost use Rattle.expansions.specs.BlockTable.{Rows};
ghost use Rattle.expansions.specs.Classes.{most_mixed};

use blocks::rows::ROWS;
use expansions::families::Family;
use expansions::kinds::Class;
use numbers::limits::Limits;

// How many inputs the table has, the class, how many inputs are mixed, and the family by whose rule an expansion is charged: numbers within the limits
// where the search is carried out.
#[derive(Clone, Copy, Debug, PartialEq, Eq)]
pub struct Sizes {
    pub n: usize,
    pub class: Class,
    pub k: usize,
    pub family: Family,
    pub ghost inputs: { n ≤ 8 },
    pub ghost mixed: { k ≤ most_mixed class },
    pub ghost within: { k ≤ n },
}

impl Sizes {
    // The most terms; there are no more blocks.
    pub const PLACES: usize = Limits::PLACES;

    // The most room that block functions take: a byte for each output of each block.
    pub const ROOM: usize = Limits::OUTPUTS * Sizes::PLACES;
}

// The sizes, and the rows of the class with as many mixed inputs: who searches takes them once and lends them down.
#[derive(Clone, Copy)]
pub struct Search {
    pub sizes: Sizes,
    pub rows: [u64; ROWS],
    pub ghost rows_of_class: { Rows sizes.class sizes.k rows },
}

// A mixed set M and a fixed polarity i, as masks.
#[derive(Clone, Copy, Debug, PartialEq, Eq)]
pub struct Pair {
    pub mixed: usize,
    pub fixed: usize,
}
