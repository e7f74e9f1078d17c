// The binary minimising call on n, m, k, a table and two lent buffers. It judges its arguments in document 01's order, refusals 2, 3, 4, 8
// and 9, and under a refusal changes no lent byte.
ghost use Rattle.std.specs.Prelude.{◌≡◌};
ghost use Rattle.minimise_calls.specs.Calls.{minimise_refusal, Minimise};

use expansions::families::Family;
use expansions::kinds::Class;
use numbers::limits::Limits;
use numbers::refusals::{Refusal, Refused, judge_sizes, within_outputs};
use search::answer::find_answer;

// What the minimising call returns of the member that it found: the mixed set M, the fixed polarity i, the counts and the inversion mask.
#[derive(Clone, Copy, Debug, PartialEq, Eq)]
pub struct Minimum {
    pub mixed: usize,
    pub fixed: usize,
    pub products: usize,
    pub literals: usize,
    pub inverted: u8,
}

// Judges the arguments, to the first refusal that applies; `coefficients` and `blocks` are the lengths of the buffers to fill.
#[tactic(auto, using(numbers::proofs::refusals::Judging::sizes_shifts), unfolding(crate::specs::Calls::minimise_refusal))]
fn judge(
    n: usize,
    m: usize,
    k: usize,
    table: &[u8],
    coefficients: usize,
    blocks: usize,
) -> Result<(), Refusal>
    ensures { result ≡ minimise_refusal n m k table.now coefficients blocks }
{
    judge_sizes(n, m, Limits::MIXED, k)?;
    let size: usize = 1 << n;
    let count: usize = 1 << (n - k);
    if table.len() != size || coefficients != size || blocks != count {
        return Err(Refusal::BufferLength);
    }
    if !within_outputs(m, table) {
        return Err(Refusal::HighBit);
    }
    Ok(())
}

// Takes n, m, k and a table of 2^n bytes, and finds the first least member, as family one compares, that gives the table. It fills
// `coefficients`, 2^n bytes, and `blocks`, 2^(n−k) bytes, and returns M, i, products, literals and the inversion mask. Refuses n or m outside 1 to 8, k
// above 3 or above n, another length of a buffer, and a byte with a bit at m or above.
pub fn minimise(
    n: usize,
    m: usize,
    k: usize,
    table: &[u8],
    coefficients: &mut [u8],
    blocks: &mut [u8],
) -> Result<Minimum, Refused>
    ensures { Minimise n m k table.now coefficients.old coefficients.new blocks.old blocks.new result }
{
    judge(n, m, k, table, coefficients.len(), blocks.len())?;
    let found = find_answer(Class::Block, Family::One, n, m, k, table);
    coefficients.copy_from_slice(&found.coefficients[..coefficients.len()]);
    blocks.copy_from_slice(&found.blocks[..blocks.len()]);
    Ok(Minimum {
        mixed: found.mixed,
        fixed: found.fixed,
        products: found.products,
        literals: found.literals,
        inverted: found.inverted,
    })
}
