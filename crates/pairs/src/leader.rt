// The search over the pairs of M and i: every M of k inputs and every i with the bits of M zero, in ascending order of M * 2^n + i. For one M
// it counts up over the polarities of the inputs outside M, closed up, and goes from the block functions under one to those under the next.
// The main property: `first_least` hands up the first pair of least charge, every block having its first least choice.
ghost use Rattle.std.specs.Prelude.{◌≡◌, suc, ◌+◌, ◌-◌, ◌*◌, ◌^◌, ◌≤◌, ◌<◌, length};
ghost use Rattle.numbers.specs.Bytes.{at};
ghost use Rattle.expansions.specs.Classes.{apart};
ghost use Rattle.lanes.specs.Inner.Sizes.{MixedSet};
ghost use Rattle.pairs.specs.Inner.Pairs.{Given, least_from, pair_from, pair_of, led_by, Leads};

use charges::cheapest::{cheapest_block, cheapest_first};
use expansions::kinds::apart;
use lanes::expand::{expand_blocks, next_polarity};
use lanes::sizes::{Pair, Search, Sizes};
use points::split::{ones_in, outside, spread};

// The pair that leads, M * 2^n + i, and its charge; before there is one, the charge is above every charge.
#[derive(Clone, Copy, Debug, PartialEq, Eq)]
pub struct Leader {
    pub charge: u32,
    pub pair: usize,
}

// What the blocks other than block 0 cost together, each under its first least choice; whether the terms of a block choose apart is told as a constant.
fn others_charge<const APART: bool>(search: &Search, lanes: &[u8]) -> u32
    requires told { apart search.now.sizes.class search.now.sizes.k ≡ APART }
    requires lanes_len { length lanes.now ≡ 8 * 2 ^ (search.now.sizes.n - search.now.sizes.k) }
    ensures { least_from search.now.sizes (at lanes.now) 0 + result * 256 ≡ pair_from search.now.sizes (at lanes.now) }
{
    let count: usize = 1 << (search.sizes.n - search.sizes.k);
    let mut others = 0;
    for j in 1..count {
        others += cheapest_block::<APART>(search, lanes, j).charge;
    }
    others
}

// What a pair costs, from its block functions: the sum over the blocks of what each costs under its first least choice, block 0 with its mask and 256
// times the others.
fn pair_charge(search: &Search, lanes: &[u8]) -> u32
    requires lanes_len { length lanes.now ≡ 8 * 2 ^ (search.now.sizes.n - search.now.sizes.k) }
    ensures { result ≡ pair_from search.now.sizes (at lanes.now) }
{
    let first = cheapest_first(search, lanes);
    let others = if apart(search.sizes.class, search.sizes.k) {
        others_charge::<true>(search, lanes)
    } else {
        others_charge::<false>(search, lanes)
    };
    first.charge + others * 256
}

// The leader once the pair of `mixed` and the closed-up polarity w has been tried, from its block functions.
fn try_polarity(search: &Search, mixed: usize, w: usize, lanes: &[u8], leader: Leader) -> Leader
    requires mixed_bound { let s = search.now.sizes in (mixed < 2 ^ s.n) × (length lanes.now ≡ 8 * 2 ^ (s.n - s.k)) }
    ensures { result ≡ led_by (pair_from search.now.sizes (at lanes.now)) (pair_of search.now.sizes.n mixed w) leader }
{
    let charge = pair_charge(search, lanes);
    if charge < leader.charge {
        let fixed = spread(search.sizes.n, outside(search.sizes.n, mixed), w);
        return Leader {
            charge,
            pair: (mixed << search.sizes.n) + fixed,
        };
    }
    leader
}

// The leader once every i has been tried with `mixed`, which has k inputs. `lanes` is room for the block functions.
fn try_polarities(
    search: &Search,
    mixed: usize,
    table: &[u8],
    lanes: &mut [u8],
    leader: Leader,
) -> Leader
    requires given { Given search.now.sizes.n table.now }
    requires mixed_set { MixedSet search.now.sizes mixed × (length lanes.old ≡ 8 * 2 ^ (search.now.sizes.n - search.now.sizes.k)) }
    requires leads { let s = search.now.sizes in Leads s.class s.family s.n s.k (at table.now) (mixed * 2 ^ s.n) leader }
    ensures { let s = search.now.sizes in Leads s.class s.family s.n s.k (at table.now) (suc mixed * 2 ^ s.n) result }
{
    expand_blocks(search.sizes, Pair { mixed, fixed: 0 }, table, lanes);
    let r = search.sizes.n - search.sizes.k;
    let count: usize = 1 << r;
    let mut led = leader;
    for w in 0..count {
        led = try_polarity(search, mixed, w, lanes, led);
        next_polarity(r, w, lanes);
    }
    led
}

// The leader once every i has been tried with `mixed`, if it has k inputs; one with another number of inputs has no pair.
fn try_mixed(search: &Search, mixed: usize, table: &[u8], leader: Leader) -> Leader
    requires given { Given search.now.sizes.n table.now }
    requires mixed_bound { let s = search.now.sizes in (mixed < 2 ^ s.n) × Leads s.class s.family s.n s.k (at table.now) (mixed * 2 ^ s.n) leader }
    ensures { let s = search.now.sizes in Leads s.class s.family s.n s.k (at table.now) (suc mixed * 2 ^ s.n) result }
{
    if ones_in(search.sizes.n, mixed) != search.sizes.k {
        return leader;
    }
    let mut lanes = [0u8; Sizes::ROOM];
    let all: usize = 8 << (search.sizes.n - search.sizes.k);
    try_polarities(search, mixed, table, &mut lanes[..all], leader)
}

// The first pair of least charge, and its charge.
pub fn first_least(search: &Search, table: &[u8]) -> Leader
    requires given { Given search.now.sizes.n table.now }
    ensures { let s = search.now.sizes in Leads s.class s.family s.n s.k (at table.now) (2 ^ s.n * 2 ^ s.n) result }
{
    let all: usize = 1 << search.sizes.n;
    let mut led = Leader {
        charge: u32::MAX,
        pair: 0,
    };
    for mixed in 0..all {
        led = try_mixed(search, mixed, table, led);
    }
    led
}
