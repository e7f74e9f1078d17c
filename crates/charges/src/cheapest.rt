// What a block costs, by the rule of a family. Eight choices of a block are compared side by side in one word, term by term, by small sums that order
// them as every family's charge does; where the terms of a block choose apart there are two such words. Block 0 leaves out the constant, whose
// coefficient is the inversion mask: where the sums are equal, the masks decide. The main property: `cheapest_first`, for block 0, and of the other
// blocks `cheapest_block`, hand up the first least choice of a block and its charge.
ghost use Rattle.std.specs.Prelude.{true, false, cond, ◌≡◌, ℕ, ◌+◌, ◌*◌, ◌/◌, ◌^◌, ◌≤◌, ◌<◌, length};
ghost use Rattle.std.specs.Int.Count.{ones};
ghost use Rattle.numbers.specs.Bytes.{at};
ghost use Rattle.numbers.specs.Words.{word, byte};
ghost use Rattle.expansions.specs.declared.kinds.Class.{Class};
ghost use Rattle.expansions.specs.Classes.{apart, choices};
ghost use Rattle.expansions.specs.BlockTable.{Rows};
ghost use Rattle.expansions.specs.Rules.{rule_of};
ghost use Rattle.expansions.specs.Inner.Charges.{small_sum, sum_charge};
ghost use Rattle.charges.specs.Inner.Charges.{used_at, charge_from, all_from, all_sum, masked_sum, compared, IsLeastSum, IsCheapest};
ghost use Rattle.lanes.specs.Inner.Terms.{coefficient_in};

use blocks::rows::ROWS;
use expansions::families::{Family, weights_of};
use expansions::kinds::apart;
use lanes::sizes::Search;

// The literal count of each of the eight terms.
const LITERALS: [u8; 8] = [0, 1, 1, 2, 1, 2, 2, 3];

// The least of the small sums of a block, in block 0 each with its mask in the byte below it, and the first choice that has it.
#[derive(Clone, Copy, Debug, PartialEq, Eq)]
pub struct LeastSum {
    pub sum: u32,
    pub choice: u8,
}

// The first least choice of a block, and what the block costs under it.
#[derive(Clone, Copy, Debug, PartialEq, Eq)]
pub struct Cheapest {
    pub charge: u32,
    pub choice: u8,
}

// The row of output o of block j, for the eight choices from 8 * half on: each byte has the terms of the output under one of them.
fn row_of(rows: &[u64; ROWS], half: usize, lanes: &[u8], j: usize, o: usize) -> u64
    requires { (half < 2) × (j < 256) × (o < 8) × (j * 8 + 8 ≤ length lanes.now) }
    ensures { result ≡ at rows.now (half * 256 + at lanes.now (j * 8 + o)) }
{
    rows[half * 256 + usize::from(lanes[j * 8 + o])]
}

// The terms that some output has in block j, as the bits of a byte for each of the eight choices from 8 * half on, from the block functions.
fn used_terms(rows: &[u64; ROWS], half: usize, lanes: &[u8], j: usize) -> u64
    requires { (half < 2) × (j < 256) × (j * 8 + 8 ≤ length lanes.now) }
    ensures { (C : Class) (k : ℕ) → Rows C k rows.now → half < cond (apart C k) 2 1 → result ≡ word 8 (λ q. used_at C k (at lanes.now) j (half * 8 + q)) }
{
    let mut used = 0;
    for o in 0..8 {
        used |= row_of(rows, half, lanes, j, o);
    }
    used
}

// The small sum of each of eight bytes of terms, as the bytes of a word: the term's bit in each of the eight, times its weight.
fn small_sums(used: u64) -> u64
    ensures { result ≡ word 8 (λ φ. small_sum (byte φ used)) }
{
    let literals = LITERALS;
    let mut sums = 0;
    for t in 0..8 {
        sums += ((used >> t) & 0x0101010101010101) * (16 + u64::from(literals[t]));
    }
    sums
}

// The coefficient of the constant, all outputs together, for each of the eight choices of block 0 from 8 * half on, as the bytes of a word.
fn constants(rows: &[u64; ROWS], half: usize, lanes: &[u8]) -> u64
    requires { (half < 2) × (8 ≤ length lanes.now) }
    ensures { (C : Class) (k : ℕ) → Rows C k rows.now → half < cond (apart C k) 2 1 → result ≡ word 8 (λ q. coefficient_in C k (at lanes.now) 0 0 (half * 8 + q)) }
{
    let mut all = 0;
    for output in 0..8 {
        all += (row_of(rows, half, lanes, 0, output) & 0x0101010101010101) << output;
    }
    all
}

// Eight bytes of terms, each without term 0.
fn without_constants(used: u64) -> u64
    ensures { result ≡ word 8 (λ φ. byte φ used / 2 * 2) }
{
    used - (used & 0x0101010101010101)
}

// What is compared of a choice, from the lowest bytes of two words: the sum, and with MASKED the mask in the byte below it.
fn compared<const MASKED: bool>(sums: u64, masks: u64) -> u32
    ensures { result ≡ compared MASKED (byte 0 sums) (byte 0 masks) }
{
    if MASKED {
        ((sums & 255) * 256 + (masks & 255)) as u32
    } else {
        (sums & 255) as u32
    }
}

// The least of the first `count` bytes of the sums, with MASKED each with its mask in the byte below it, and the first that has it. Masks of 0 would
// serve where there are none, and cost time.
fn least_sum<const MASKED: bool>(count: u8, sums: u64, masks: u64) -> LeastSum
    requires { (0 < count) × (count ≤ 8) }
    ensures { IsLeastSum count (λ φ. compared MASKED (byte φ sums) (byte φ masks)) result }
{
    let mut least = LeastSum {
        sum: compared::<MASKED>(sums, masks),
        choice: 0,
    };
    let mut rest = sums >> 8;
    let mut rest_masks = masks >> 8;
    for choice in 1..count {
        let sum = compared::<MASKED>(rest, rest_masks);
        if sum < least.sum {
            least = LeastSum { sum, choice };
        }
        rest >>= 8;
        rest_masks >>= 8;
    }
    least
}

// The literals that each term of block j has outside the mixed set, counted three inputs at a time.
fn literals_outside(j: usize) -> u32
    requires { j < 256 }
    ensures { result ≡ ones j }
{
    let literals = LITERALS;
    u32::from(literals[j & 7])
        + u32::from(literals[(j >> 3) & 7])
        + u32::from(literals[(j >> 6) & 7])
}

// What a block costs by the family's rule, where its small sum is `sum` and each of its terms has `more` literals outside the mixed set: each product
// with these literals, and the literals in the block.
fn sum_charge(family: Family, more: u32, sum: u32) -> u32
    requires { (more ≤ 8) × (sum < 256) }
    ensures { result ≡ sum_charge (rule_of family) more sum }
{
    let weights = weights_of(family);
    (sum >> 4) * (weights.product + more * weights.literal) + (sum & 15) * weights.literal
}

// The lesser of two least sums, the first where they are equal; the second is that of the eight choices from 8 on, counted from 0.
fn lesser(low: LeastSum, high: LeastSum) -> LeastSum
    requires { high.choice < 8 }
    ensures { (sums : ℕ → ℕ) → IsLeastSum 8 sums low → IsLeastSum 8 (λ x. sums (8 + x)) high → IsLeastSum 16 sums result }
{
    if high.sum < low.sum {
        return LeastSum {
            sum: high.sum,
            choice: high.choice + 8,
        };
    }
    low
}

// The least sum of block 0, each with its mask, of the first `count` choices from 8 * half on.
fn least_first_from(rows: &[u64; ROWS], half: usize, count: u8, lanes: &[u8]) -> LeastSum
    requires { (half < 2) × (0 < count) × (count ≤ 8) × (8 ≤ length lanes.now) }
    ensures { (C : Class) (k : ℕ) → Rows C k rows.now → half < cond (apart C k) 2 1 → IsLeastSum count (λ q. masked_sum C k (at lanes.now) (half * 8 + q)) result }
{
    let used = without_constants(used_terms(rows, half, lanes, 0));
    least_sum::<true>(count, small_sums(used), constants(rows, half, lanes))
}

// The least sum of block 0, each with its mask, of all its choices.
fn least_first(search: &Search, lanes: &[u8]) -> LeastSum
    requires { 8 ≤ length lanes.now }
    ensures { let s = search.now.sizes in IsLeastSum (choices s.class s.k) (masked_sum s.class s.k (at lanes.now)) result }
{
    if apart(search.sizes.class, search.sizes.k) {
        let low = least_first_from(&search.rows, 0, 8, lanes);
        let high = least_first_from(&search.rows, 1, 8, lanes);
        return lesser(low, high);
    }
    least_first_from(&search.rows, 0, 1 << search.sizes.k, lanes)
}

// The first least choice of block 0, from the block functions, and what the block costs under it. Block 0 has the constant, whose coefficient costs
// nothing but its place in the order of masks.
pub fn cheapest_first(search: &Search, lanes: &[u8]) -> Cheapest
    requires { 8 ≤ length lanes.now }
    ensures { let s = search.now.sizes in IsCheapest (choices s.class s.k) (charge_from s.class s.k s.family (at lanes.now) 0) result }
{
    let least = least_first(search, lanes);
    Cheapest {
        charge: sum_charge(search.sizes.family, 0, least.sum >> 8) * 256 + (least.sum & 255),
        choice: least.choice,
    }
}

// The least sum of block j, all its terms summed, of the first `count` choices from 8 * half on.
fn least_from(rows: &[u64; ROWS], half: usize, count: u8, lanes: &[u8], j: usize) -> LeastSum
    requires { (half < 2) × (0 < count) × (count ≤ 8) × (j < 256) × (j * 8 + 8 ≤ length lanes.now) }
    ensures { (C : Class) (k : ℕ) → Rows C k rows.now → half < cond (apart C k) 2 1 → IsLeastSum count (λ q. all_sum C k (at lanes.now) j (half * 8 + q)) result }
{
    least_sum::<false>(count, small_sums(used_terms(rows, half, lanes, j)), 0)
}

// The least sum of block j, all its terms summed, of all its choices. Whether the terms of a block choose apart is told as a constant, so that a loop
// over the blocks is compiled for each of the two by itself.
fn least_of<const APART: bool>(search: &Search, lanes: &[u8], j: usize) -> LeastSum
    requires block { (j < 256) × (j * 8 + 8 ≤ length lanes.now) }
    requires told { apart search.now.sizes.class search.now.sizes.k ≡ APART }
    ensures { let s = search.now.sizes in IsLeastSum (choices s.class s.k) (all_sum s.class s.k (at lanes.now) j) result }
{
    if APART {
        let first = least_from(&search.rows, 0, 8, lanes, j);
        let last = least_from(&search.rows, 1, 8, lanes, j);
        return lesser(first, last);
    }
    least_from(&search.rows, 0, 1 << search.sizes.k, lanes, j)
}

// The first least choice of block j, from the block functions, and what the block costs under it, all its terms charged. It is asked of the blocks other
// than block 0, where a pair's charge has 256 times that.
pub fn cheapest_block<const APART: bool>(search: &Search, lanes: &[u8], j: usize) -> Cheapest
    requires block { (j < 256) × (j * 8 + 8 ≤ length lanes.now) }
    requires told { apart search.now.sizes.class search.now.sizes.k ≡ APART }
    ensures { let s = search.now.sizes in IsCheapest (choices s.class s.k) (all_from s.class s.k s.family (at lanes.now) j) result }
{
    let least = least_of::<APART>(search, lanes, j);
    Cheapest {
        charge: sum_charge(search.sizes.family, literals_outside(j), least.sum),
        choice: least.choice,
    }
}
