// The expansion record of the pair that was found: the first least choice of each block, the coefficients under them, and the inversion mask.
ghost use Rattle.std.specs.Prelude.{◌≡◌, ◌-◌, ◌*◌, ◌^◌, length};
ghost use Rattle.numbers.specs.Bytes.{at, tabulate};
ghost use Rattle.search.specs.Inner.Answer.{answer_expansion};
ghost use Rattle.pairs.specs.Inner.Pairs.{Given, Leads};
ghost use Rattle.search.specs.Inner.Search.{choice_at};

use crate::expansion::Expansion;
use charges::cheapest::{cheapest_block, cheapest_first};
use expansions::families::counts_in;
use expansions::kinds::apart;
use lanes::expand::expand_blocks;
use lanes::sizes::{Pair, Search, Sizes};
use lanes::terms::coefficients;
use pairs::leader::Leader;

// The first least choice of block j, and 0 where there is no block j.
fn choice_at(search: &Search, lanes: &[u8], j: usize) -> u8
    requires lanes_len { length lanes.now ≡ 8 * 2 ^ (search.now.sizes.n - search.now.sizes.k) }
    ensures { let s = search.now.sizes in result ≡ choice_at s.class s.family s.n s.k (at lanes.now) j }
{
    let count: usize = 1 << (search.sizes.n - search.sizes.k);
    if count <= j {
        return 0;
    }
    if j == 0 {
        let first = cheapest_first(search, lanes);
        return first.choice;
    }
    if apart(search.sizes.class, search.sizes.k) {
        let least = cheapest_block::<true>(search, lanes, j);
        return least.choice;
    }
    let least = cheapest_block::<false>(search, lanes, j);
    least.choice
}

// The first least choice of each block, from the block functions.
fn block_choices(search: &Search, lanes: &[u8]) -> [u8; Expansion::PLACES]
    requires lanes_len { length lanes.now ≡ 8 * 2 ^ (search.now.sizes.n - search.now.sizes.k) }
    ensures { let s = search.now.sizes in result ≡ tabulate 256 (choice_at s.class s.family s.n s.k (at lanes.now)) }
{
    let mut all = [0u8; Expansion::PLACES];
    for (j, choice) in all.iter_mut().enumerate() {
        *choice = choice_at(search, lanes, j);
    }
    all
}

// The record of the leader of all the pairs. The coefficient of the constant becomes the inversion mask; what the
// leader costs stands above the mask in its charge.
pub fn expansion_of(search: &Search, table: &[u8], leader: Leader) -> Expansion
    requires given { Given search.now.sizes.n table.now }
    requires leads { let s = search.now.sizes in Leads s.class s.family s.n s.k (at table.now) (2 ^ s.n * 2 ^ s.n) leader }
    ensures { let s = search.now.sizes in result ≡ answer_expansion s.class s.family s.n s.k (at table.now) }
{
    let all: usize = 1 << search.sizes.n;
    let mixed = leader.pair >> search.sizes.n;
    let fixed = leader.pair & (all - 1);
    let mut lanes = [0u8; Sizes::ROOM];
    let room: usize = 8 << (search.sizes.n - search.sizes.k);
    expand_blocks(
        search.sizes,
        Pair { mixed, fixed },
        table,
        &mut lanes[..room],
    );
    let chosen = block_choices(search, &lanes[..room]);
    let mut filled = coefficients(search, mixed, &lanes[..room], &chosen);
    let inverted = filled[0];
    filled[0] = 0;
    let counts = counts_in(search.sizes.family, leader.charge >> 8);
    Expansion {
        coefficients: filled,
        blocks: chosen,
        mixed,
        fixed,
        products: counts.products,
        literals: counts.literals,
        inverted,
    }
}
