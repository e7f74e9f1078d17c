// The expansion record of document 01, which the search hands up. The empty record is document 01's
// answer for a table that is all zero.
ghost use Rattle.std.specs.Prelude.{◌≡◌, ◌-◌, ◌^◌, min};
ghost use Rattle.search.specs.Expansion.{empty_expansion};

use numbers::limits::Limits;

// A member of a class and what it costs: the coefficient of each term, the choice of each block, which in document 01's class is its polarity, the
// mixed set M and the fixed polarity i as masks, the counts of products and literals, and the outputs that are inverted, bit o for output o.
#[derive(Clone, Copy)]
pub struct Expansion {
    pub coefficients: [u8; Expansion::PLACES],
    pub blocks: [u8; Expansion::PLACES],
    pub mixed: usize,
    pub fixed: usize,
    pub products: usize,
    pub literals: usize,
    pub inverted: u8,
}

impl Expansion {
    // The coefficient places, one for each term of as many inputs as there can be; there are as many for the choices of the blocks.
    pub const PLACES: usize = Limits::PLACES;

    // The expansion with no product and no output inverted, whose mixed set is the k lowest inputs. A k above 8 is read as 8, so that the set stays
    // within the eight inputs; nothing is refused.
    #[tactic(auto, unfolding(crate::specs::Expansion::empty_expansion))]
    pub fn empty(k: usize) -> Expansion
        ensures { result ≡ empty_expansion k }
    {
        let mixed = lowest_inputs(k);
        Expansion {
            coefficients: [0; Expansion::PLACES],
            blocks: [0; Expansion::PLACES],
            mixed,
            fixed: 0,
            products: 0,
            literals: 0,
            inverted: 0,
        }
    }
}

// The mask of the k lowest inputs, of all eight where k is above 8.
fn lowest_inputs(k: usize) -> usize
    ensures { result ≡ 2 ^ min k 8 - 1 }
{
    (1 << k.min(Limits::INPUTS)) - 1
}
