// What the terms weigh, and what the two halves of an expansion and their exclusive OR cost.
ghost use Rattle.std.specs.Prelude.{◌≡◌, ◌+◌, ◌^◌, ◌≤◌, ◌<◌};
ghost use Rattle.numbers.specs.Bytes.{at};
ghost use Rattle.expansions.specs.Costs.{counted};
ghost use Rattle.expansions.specs.Inner.KroneckerWalk.{Light, Weighed, Halves};

use crate::expansion::KroneckerExpansion;

// How many of a charge's bits are its literals. The products stand above them.
pub const LITERAL_BITS: u32 = 12;

// What a product weighs, each of its literals weighing 1. An expansion has fewer literals than this, at most 8 for each of 256 terms, so a
// charge holds its products and its literals as one number.
pub const PRODUCT: u32 = 1 << LITERAL_BITS;

// The places of one half: the terms of all inputs but the last.
pub const HALF_PLACES: usize = 1 << (KroneckerExpansion::INPUTS - 1);

// The weight where the coefficient is not 0, and 0 where it is.
#[tactic(auto, unfolding(expansions::specs::Costs::counted))]
fn counted_weight(coefficient: u8, weight: u32) -> u32
    ensures { result ≡ counted coefficient weight }
{
    if coefficient == 0 { 0 } else { weight }
}

// What the lower half of the places weighs, the upper half, and their exclusive OR.
#[derive(Clone, Copy, Debug, PartialEq, Eq)]
pub struct HalfCharges {
    pub lower: u32,
    pub upper: u32,
    pub both: u32,
}

// Weighs the two halves of the first 2^(m + 1) places, and their exclusive OR: what a step for input m leaves, whichever its letter.
pub fn half_charges(
    m: usize,
    values: &[u8; KroneckerExpansion::PLACES],
    weights: &[u32; HALF_PLACES],
) -> HalfCharges
    requires { (m < 8) × Light (2 ^ m) (at weights.now) }
    ensures { Halves m (at values.now) (at weights.now) result.lower result.upper result.both }
{
    let half: usize = 1 << m;
    let mut lower = 0;
    let mut upper = 0;
    let mut both = 0;
    for s in 0..half {
        let weight = weights[s];
        let first = values[s];
        let second = values[s + half];
        lower += counted_weight(first, weight);
        upper += counted_weight(second, weight);
        both += counted_weight(first ^ second, weight);
    }
    HalfCharges { lower, upper, both }
}

// The weights of the terms of one more input: `more` literals more without it, which is one where it is a Shannon input, and one more with it.
pub fn weigh(i: usize, more: u32, weights: &[u32; HALF_PLACES]) -> [u32; HALF_PLACES]
    requires { (i < 7) × (more ≤ 1) × Light (2 ^ i) (at weights.now) }
    ensures { Weighed i more (at weights.now) (at result) }
{
    let half: usize = 1 << i;
    let mut next = [0u32; HALF_PLACES];
    for s in 0..half {
        let weight = weights[s];
        next[s] = weight + more;
        next[s + half] = weight + 1;
    }
    next
}
