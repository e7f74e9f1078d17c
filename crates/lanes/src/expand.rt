// The functions of the blocks of one mixed set, all outputs side by side: byte 8 * j + o is output o of block j, its bits the places of the
// block. What belongs to one block is a run of eight bytes, so a step over the inputs outside the mixed set joins whole words.
// The main property: `expand_blocks` leaves the block functions of M and i, and `next_polarity` those of the next i.
ghost use Rattle.std.specs.Prelude.{◌≡◌, ℕ, suc, ◌+◌, ◌-◌, ◌*◌, ◌/◌, ◌%◌, ◌^◌, ◌<◌, ◌≤◌, length};
ghost use Rattle.std.proofs.lemmas.List.Edits.{sets};
ghost use Rattle.numbers.specs.Bits.{bit};
ghost use Rattle.numbers.specs.Bytes.{at, tabulate};
ghost use Rattle.numbers.specs.Words.{word, byte};
ghost use Rattle.expansions.specs.Split as Split;
ghost use Rattle.lanes.specs.Inner.LaidOut.{LaidOut, BlockFunctions};
ghost use Rattle.lanes.specs.Inner.Lanes.{lane_byte, places_byte, lanes_under, block_lanes, NextLanes};
ghost use Rattle.lanes.specs.Inner.Sizes.{MixedSet};

use crate::sizes::{Pair, Sizes};
use algebra::transform::{change_polarity, coefficients_into};
use points::ascending::next_point;
use points::split::{gather, outside};

// Fills `points` with the numbers 0, 1, .. opened out at the inputs of the mask, stepping from each to the next.
fn open_out(n: usize, mask: usize, points: &mut [u8])
    requires { (n ≤ 8) × (mask < 2 ^ n) }
    ensures { points.new ≡ tabulate (length points.old) (Split.spread n mask) }
{
    let mut next = 0;
    for point in points.iter_mut() {
        *point = (next & 255) as u8;
        next = next_point(n, mask, next);
    }
}

// Each output of a byte by itself: bit o of the byte is the lowest bit of byte o of the word. The byte stands in each byte of the word, and byte o
// keeps bit o alone; 127 more carries that bit to the highest of its byte.
fn outputs_apart(outputs: u8) -> u64
    ensures { result ≡ word 8 (λ o. bit o outputs) }
{
    let each = (u64::from(outputs) * 0x0101010101010101) & 0x8040201008040201;
    ((each + 0x7f7f7f7f7f7f7f7f) >> 7) & 0x0101010101010101
}

// The outputs at the eight places of the block whose first point is `point`, each point read once: byte o of the word has output o at the places,
// as its bits.
fn lane_word(table: &[u8], point: usize, offsets: &[u8; 8]) -> u64
    requires { (p : ℕ) → p < 8 → point + at offsets.now p < length table.now }
    ensures { result ≡ word 8 (lane_byte table.now point offsets.now) }
{
    let mut all: u64 = 0;
    for (p, offset) in offsets.iter().enumerate() {
        all += outputs_apart(table[point + usize::from(*offset)]) << p;
    }
    all
}

// Fills `lanes` with a byte for each block and output, by the first point of each block and the offset of each place.
fn fill_lanes(table: &[u8], points: &[u8], offsets: &[u8; 8], lanes: &mut [u8])
    requires { (length lanes.old ≡ 8 * length points.now) × ((q p : ℕ) → q < length points.now → p < 8 → at points.now q + at offsets.now p < length table.now) }
    ensures { lanes.new ≡ tabulate (length lanes.old) (λ x. lane_byte table.now (at points.now (x / 8)) offsets.now (x % 8)) }
{
    for (q, point) in points.iter().enumerate() {
        let all = lane_word(table, usize::from(*point), offsets);
        lanes[8 * q..8 * q + 8].copy_from_slice(&all.to_le_bytes());
    }
}

// Fills `lanes` with the table's outputs by block and place.
fn lay_out(sizes: Sizes, mixed: usize, table: &[u8], lanes: &mut [u8])
    requires mixed_set { MixedSet sizes mixed }
    requires table_len { (length table.now ≡ 2 ^ sizes.n) × (length lanes.old ≡ 8 * 2 ^ (sizes.n - sizes.k)) }
    ensures lanes_after { lanes.new ≡ tabulate (8 * 2 ^ (sizes.n - sizes.k)) (λ x. places_byte sizes.n sizes.k mixed (at table.now) (x % 8) (x / 8)) }
    ensures places { LaidOut sizes.n sizes.k mixed table.now lanes.new }
{
    let mut points = [0u8; Sizes::PLACES];
    let mut offsets = [0u8; 8];
    let count: usize = 1 << (sizes.n - sizes.k);
    open_out(sizes.n, outside(sizes.n, mixed), &mut points[..count]);
    open_out(sizes.n, mixed, &mut offsets);
    fill_lanes(table, &points[..count], &offsets, lanes);
}

// Fills `lanes` with the coefficients under w of each of the eight functions of r inputs that stand side by side in `laid`.
fn expand_lanes(r: usize, w: usize, laid: &[u8], lanes: &mut [u8])
    requires { (r ≤ 8) × (w < 2 ^ r) × (length laid.now ≡ 8 * 2 ^ r) × (length lanes.old ≡ 8 * 2 ^ r) }
    ensures { lanes.new ≡ lanes_under r w (λ o q. at laid.now (q * 8 + o)) }
{
    coefficients_into(3, r, w, laid, lanes);
}

// Fills `lanes` with the function of each block of M and i, for each output.
pub fn expand_blocks(sizes: Sizes, pair: Pair, table: &[u8], lanes: &mut [u8])
    requires mixed_set { MixedSet sizes pair.mixed }
    requires table_len { (length table.now ≡ 2 ^ sizes.n) × (length lanes.old ≡ 8 * 2 ^ (sizes.n - sizes.k)) }
    ensures lanes_after { lanes.new ≡ block_lanes sizes.n sizes.k pair.mixed (Split.gather sizes.n (Split.outside sizes.n pair.mixed) pair.fixed) (at table.now) }
    ensures functions { BlockFunctions sizes.n sizes.k pair.mixed pair.fixed table.now lanes.new }
{
    let r = sizes.n - sizes.k;
    let mut laid = [0u8; Sizes::ROOM];
    let all: usize = 8 << r;
    lay_out(sizes, pair.mixed, table, &mut laid[..all]);
    let w = gather(sizes.n, outside(sizes.n, pair.mixed), pair.fixed);
    expand_lanes(r, w, &laid[..all], lanes);
}

// From the coefficients under w to those under w + 1, where that is a polarity of r inputs: the inputs whose bits change are turned over,
// two of them on the average. After the last polarity the bytes stay as they were.
pub fn next_polarity(r: usize, w: usize, lanes: &mut [u8])
    requires { (r ≤ 8) × (w < 2 ^ r) × (length lanes.old ≡ 8 * 2 ^ r) }
    ensures by_index { (f : ℕ → ℕ → ℕ) → suc w < 2 ^ r → lanes.old ≡ lanes_under r w f → lanes.new ≡ lanes_under r (suc w) f }
    ensures every { NextLanes r w lanes.old lanes.new }
{
    change_polarity(3, r, w, w + 1, lanes);
}
