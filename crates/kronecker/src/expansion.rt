// The record that the search over the kinds hands up. The empty record has no product.
ghost use Rattle.std.specs.Prelude.{◌≡◌};
ghost use Rattle.kronecker.specs.Expansion.{empty_kronecker};

use crate::letter::Letter;
use numbers::limits::Limits;

// An expansion of a kind and what it costs: the coefficient of each term, zero from 2^n on; the letter of each input from x1 up by its number, S 0,
// P 1, N 2, and 0 where there is no input; and the counts of products and literals.
#[derive(Clone, Copy, Debug, PartialEq, Eq)]
pub struct KroneckerExpansion {
    pub coefficients: [u8; KroneckerExpansion::PLACES],
    pub letters: [u8; KroneckerExpansion::INPUTS],
    pub products: usize,
    pub literals: usize,
}

impl KroneckerExpansion {
    // The letters, one for each of as many inputs as there can be.
    pub const INPUTS: usize = Limits::INPUTS;

    // The coefficient places, one for each term of as many inputs as there can be.
    pub const PLACES: usize = Limits::PLACES;

    // The expansion with no product, every input taken the Shannon way.
    #[tactic(auto, unfolding(crate::specs::Expansion::empty_kronecker, crate::specs::Letters::letter_number))]
    pub fn empty() -> KroneckerExpansion
        ensures { result ≡ empty_kronecker }
    {
        KroneckerExpansion {
            coefficients: [0u8; KroneckerExpansion::PLACES],
            letters: [Letter::Shannon.number(); KroneckerExpansion::INPUTS],
            products: 0,
            literals: 0,
        }
    }
}
