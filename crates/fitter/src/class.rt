// Whether a listing is of the class: its M and i are a member's, and each of its cubes is the one that its term has under the choices of the
// blocks that the cubes show. These were read off the cubes before, so one pass over the terms is enough. In the free class each term has its
// own polarity in M, so that only literals outside M bind.
ghost use Rattle.std.specs.Prelude.{◌≡◌, ◌^◌, ◌≤◌, ◌<◌};
ghost use Rattle.numbers.specs.Bytes.{at};
ghost use Rattle.numbers.specs.Tests.{every};
ghost use Rattle.membership.specs.Class.{legal_pair, shows_back};

use points::split::{gather, ones_in};
use search::expansion::Expansion;
use search::polarity::term_polarity;
use table_texts::sizes::Sizes;

// Whether M is a mask of exactly k of the n inputs, and i one of the other inputs.
#[tactic(auto, unfolding(membership::specs::Class::legal_pair, expansions::specs::Inner::Answer::valid_pair))]
pub fn legal_pair(sizes: Sizes, mixed: usize, fixed: usize) -> bool
    requires { sizes.n ≤ 8 }
    ensures { result ≡ legal_pair sizes.n sizes.k mixed fixed }
{
    let size = 1 << sizes.n;
    mixed < size
        && fixed < size
        && ones_in(sizes.n, mixed) == sizes.k
        && gather(sizes.n, mixed, fixed) == 0
}

// Whether the cube of the term t, where it has one, shows the term's literals as they are under the choice of its block.
#[tactic(auto, unfolding(membership::specs::Class::shows_back))]
fn shows_back(
    sizes: Sizes,
    mixed: usize,
    fixed: usize,
    blocks: &[u8; Expansion::PLACES],
    coefficient: u8,
    complemented: u8,
    t: usize,
) -> bool
    requires { (sizes.n ≤ 8) × (mixed < 2 ^ sizes.n) × (fixed < 2 ^ sizes.n) }
    ensures { result ≡ shows_back sizes.class sizes.n sizes.k mixed fixed (at blocks.now) (λ _. complemented) (λ _. coefficient) t }
{
    coefficient == 0
        || t & term_polarity(sizes.class, sizes.n, sizes.k, mixed, fixed, blocks, t)
            == usize::from(complemented)
}

// Whether every cube does.
pub fn all_show_back(
    sizes: Sizes,
    mixed: usize,
    fixed: usize,
    blocks: &[u8; Expansion::PLACES],
    coefficients: &[u8; Expansion::PLACES],
    complements: &[u8; Expansion::PLACES],
) -> bool
    requires { (sizes.n ≤ 8) × (mixed < 2 ^ sizes.n) × (fixed < 2 ^ sizes.n) }
    ensures { result ≡ every (2 ^ sizes.n) (shows_back sizes.class sizes.n sizes.k mixed fixed (at blocks.now)
        (at complements.now) (at coefficients.now)) }
{
    (0..1 << sizes.n).all(|t| {
        shows_back(
            sizes,
            mixed,
            fixed,
            blocks,
            coefficients[t],
            complements[t],
            t,
        )
    })
}
