// The record that the rows of a listing show: its counts, its coefficients and complemented inputs, and the choices of its blocks.
ghost use Rattle.std.specs.Prelude.{◌≡◌, ◌/◌, ◌%◌, ◌^◌, ◌≤◌, ◌<◌};
ghost use Rattle.numbers.specs.Bytes.{at, tabulate};
ghost use Rattle.expansions.specs.Classes.{own_choice, place_choice};
ghost use Rattle.expansions.specs.Costs.{products, literals};
ghost use Rattle.shown_rows.specs.Rows.{coefficient_in, shown_blocks};

use expansions::families::Counts;
use expansions::kinds::{Class, apart};
use points::split::{gather, ones_in, split};
use search::expansion::Expansion;

// The counts of the rows: a term with outputs is a product.
pub fn count_rows(n: usize, rows: &[u16; Expansion::PLACES]) -> Counts
    requires { n ≤ 8 }
    ensures { (result.products ≡ products n (coefficient_in rows.now)) × (result.literals ≡ literals n (coefficient_in rows.now)) }
{
    let mut products = 0;
    let mut literals = 0;
    for t in 0..1 << n {
        if rows[t] & 255 != 0 {
            products += 1;
            literals += ones_in(n, t);
        }
    }
    Counts { products, literals }
}

// The byte of each row from the bit `shift` on: its outputs from bit 0, the complemented inputs from bit 8.
pub fn bytes_of(rows: &[u16; Expansion::PLACES], shift: usize) -> [u8; Expansion::PLACES]
    requires { shift ≤ 8 }
    ensures { result ≡ tabulate 256 (λ t. at rows.now t / 2 ^ shift % 256) }
{
    let mut bytes = [0; Expansion::PLACES];
    for t in 0..Expansion::PLACES {
        bytes[t] = ((rows[t] >> shift) & 255) as u8;
    }
    bytes
}

// What the place s of a block of two mixed inputs whose places choose apart adds to the choice of the block, where its cube shows this polarity.
#[tactic(auto, unfolding(expansions::specs::Classes::own_choice))]
fn own_choice(s: usize, polarity: usize) -> usize
    requires { polarity < 256 }
    ensures { result ≡ own_choice s polarity }
{
    match s {
        0 => 0,
        1 => polarity << 3,
        2 => polarity << 1,
        _ => polarity,
    }
}

// What the place s of a block adds to the choice of the block, where its cube shows this polarity in the mixed set.
fn place_choice(class: Class, k: usize, s: usize, polarity: usize) -> usize
    requires { polarity < 256 }
    ensures { result ≡ place_choice class k s polarity }
{
    if apart(class, k) {
        own_choice(s, polarity)
    } else {
        polarity
    }
}

// The choice of each block as far as its cubes show it. Where the mixed set is none of k of the n inputs there are no blocks, and all is 0.
#[tactic(auto, unfolding(crate::specs::Rows::shown_blocks))]
pub fn shown_blocks(
    class: Class,
    n: usize,
    k: usize,
    mixed: usize,
    complements: &[u8; Expansion::PLACES],
) -> [u8; Expansion::PLACES]
    requires { (n ≤ 8) × (k ≤ 3) }
    ensures { result ≡ shown_blocks class n k mixed (at complements.now) }
{
    let size = 1 << n;
    let mut blocks = [0; Expansion::PLACES];
    if size <= mixed || ones_in(n, mixed) != k {
        return blocks;
    }
    for t in 0..size {
        let parts = split(n, mixed, t);
        let shown = gather(n, mixed, usize::from(complements[t]));
        blocks[parts.block] |= place_choice(class, k, parts.place, shown) as u8;
    }
    blocks
}
