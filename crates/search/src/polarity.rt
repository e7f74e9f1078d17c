// The polarity of a term in an expansion, by which its cube is printed.
ghost use Rattle.std.specs.Prelude.{◌≡◌};
ghost use Rattle.expansions.specs.Classes.{own_polarity, place_polarity};
ghost use Rattle.search.specs.Expansion.{term_polarity};

use crate::expansion::Expansion;
use expansions::kinds::{Class, apart};
use numbers::limits::Limits;
use points::split::{split, spread};

// The polarity of the place s of a block of two mixed inputs whose places choose apart, under the choice x.
#[tactic(auto, unfolding(expansions::specs::Classes::own_polarity))]
fn own_polarity(x: usize, s: usize) -> usize
    ensures { result ≡ own_polarity x s }
{
    match s {
        0 => 0,
        1 => x >> 3,
        2 => ((x >> 2) & 1) << 1,
        _ => x & 3,
    }
}

// The polarity of the place s of a block under the choice x.
fn place_polarity(class: Class, k: usize, x: usize, s: usize) -> usize
    ensures { result ≡ place_polarity class k x s }
{
    if apart(class, k) {
        own_polarity(x, s)
    } else {
        x
    }
}

// The polarity of the term t: the fixed polarity outside the mixed set, and in it that of the term's place under the choice of its block. Where n is
// above 8 or a mask is none of n inputs it gives 0.
#[tactic(auto, using(crate::proofs::polarity::Fitting::small), unfolding(crate::specs::Expansion::term_polarity, expansions::specs::Members::polarity))]
pub fn term_polarity(
    class: Class,
    n: usize,
    k: usize,
    mixed: usize,
    fixed: usize,
    blocks: &[u8; Expansion::PLACES],
    t: usize,
) -> usize
    ensures { result ≡ term_polarity class n k mixed fixed blocks.now t }
{
    if Limits::INPUTS < n || 1 << n <= mixed || 1 << n <= fixed {
        return 0;
    }
    let parts = split(n, mixed, t);
    let choice = usize::from(blocks[parts.block]);
    fixed + spread(n, mixed, place_polarity(class, k, choice, parts.place))
}
