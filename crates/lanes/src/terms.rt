// The coefficient of each term, from the functions of all blocks and the choice of each block. The main property: `coefficients` hands up the
// byte of each term, all outputs together, and 0 past the last term.
ghost use Rattle.std.specs.Prelude.{cond, ◌≡◌, ℕ, ◌+◌, ◌-◌, ◌*◌, ◌^◌, ◌≤◌, ◌<◌, length};
ghost use Rattle.numbers.specs.Bytes.{at, tabulate};
ghost use Rattle.expansions.specs.declared.kinds.Class.{Class};
ghost use Rattle.expansions.specs.Classes.{apart};
ghost use Rattle.expansions.specs.BlockTable.{Rows};
ghost use Rattle.lanes.specs.Inner.Sizes.{MixedSet};
ghost use Rattle.lanes.specs.Inner.Terms.{coefficient_in, coefficient_at};

use crate::sizes::{Search, Sizes};
use blocks::rows::ROWS;
use points::split::split;

// The coefficient at place s of block j under the block's choice, all outputs together, whatever class the rows are those of.
fn coefficient_in(rows: &[u64; ROWS], lanes: &[u8], j: usize, s: usize, choice: u8) -> u8
    requires { (j < 256) × (j * 8 + 8 ≤ length lanes.now) × (s < 8) × (choice < 16) }
    ensures { (C : Class) (k : ℕ) → Rows C k rows.now → choice < cond (apart C k) 16 8 → result ≡ coefficient_in C k (at lanes.now) j s choice }
{
    let first = usize::from(choice >> 3) * 256;
    let shift = 8 * usize::from(choice & 7) + s;
    let mut byte: u8 = 0;
    for o in 0..8 {
        let digit = ((rows[first + usize::from(lanes[j * 8 + o])] >> shift) & 1) as u8;
        byte += digit << o;
    }
    byte
}

// The coefficient of the term t, and 0 where there is no term t.
fn coefficient_at(
    search: &Search,
    mixed: usize,
    lanes: &[u8],
    chosen: &[u8; Sizes::PLACES],
    t: usize,
) -> u8
    requires mixed_set { MixedSet search.now.sizes mixed × (length lanes.now ≡ 8 * 2 ^ (search.now.sizes.n - search.now.sizes.k)) }
    requires by_index { (j : ℕ) → at chosen.now j < cond (apart search.now.sizes.class search.now.sizes.k) 16 8 }
    ensures { let s = search.now.sizes in result ≡ coefficient_at s.class s.n s.k mixed (at lanes.now) (at chosen.now) t }
{
    let all: usize = 1 << search.sizes.n;
    if all <= t {
        return 0;
    }
    let parts = split(search.sizes.n, mixed, t);
    coefficient_in(
        &search.rows,
        lanes,
        parts.block,
        parts.place,
        chosen[parts.block],
    )
}

// The coefficient of each term, from the block functions and the choice of each block.
pub fn coefficients(
    search: &Search,
    mixed: usize,
    lanes: &[u8],
    chosen: &[u8; Sizes::PLACES],
) -> [u8; Sizes::PLACES]
    requires mixed_set { MixedSet search.now.sizes mixed × (length lanes.now ≡ 8 * 2 ^ (search.now.sizes.n - search.now.sizes.k)) }
    requires by_index { (j : ℕ) → at chosen.now j < cond (apart search.now.sizes.class search.now.sizes.k) 16 8 }
    ensures { let s = search.now.sizes in result ≡ tabulate 256 (coefficient_at s.class s.n s.k mixed (at lanes.now) (at chosen.now)) }
{
    let mut all = [0u8; Sizes::PLACES];
    for (t, coefficient) in all.iter_mut().enumerate() {
        *coefficient = coefficient_at(search, mixed, lanes, chosen, t);
    }
    all
}
