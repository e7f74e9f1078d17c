// The calls on n, m, w and two lent buffers. Each judges its arguments in document 01's order, refusals 2, 3, 7, 8 and 9, and under a
// refusal changes no lent byte.
ghost use Rattle.std.specs.Prelude.{◌≡◌};
ghost use Rattle.transform_calls.specs.Calls.{transform_refusal, Forward, Backward};

use algebra::transform::{coefficients_into, values_into};
use numbers::refusals::{Refusal, Refused, judge_table, within_outputs};

// Judges the arguments, to the first refusal that applies; `lent` is the length of the buffer to fill.
#[tactic(auto, using(numbers::proofs::refusals::Judging::table_shifts), unfolding(crate::specs::Calls::transform_refusal))]
fn judge(n: usize, m: usize, w: usize, given: &[u8], lent: usize) -> Result<(), Refusal>
    ensures { result ≡ transform_refusal n m w given.now lent }
{
    judge_table(n, m)?;
    let size: usize = 1 << n;
    if size <= w {
        return Err(Refusal::PolarityRange);
    }
    if given.len() != size || lent != size {
        return Err(Refusal::BufferLength);
    }
    if !within_outputs(m, given) {
        return Err(Refusal::HighBit);
    }
    Ok(())
}

// Takes n, m, w and a table of 2^n bytes, and fills `coefficients`, 2^n bytes, so that their value at every point is the table's byte.
// Refuses n or m outside 1 to 8, w of 2^n or more, another length of either buffer, and a byte with a bit at m or above.
pub fn forward(
    n: usize,
    m: usize,
    w: usize,
    table: &[u8],
    coefficients: &mut [u8],
) -> Result<(), Refused>
    ensures { Forward n m w table.now coefficients.old coefficients.new result }
{
    if let Err(refusal) = judge(n, m, w, table, coefficients.len()) {
        return Err(refusal.at(0));
    }
    coefficients_into(0, n, w, table, coefficients);
    Ok(())
}

// Takes n, m, w and 2^n coefficients, and fills `table`, 2^n bytes, with their value at every point.
// Refuses as `forward` does.
pub fn backward(
    n: usize,
    m: usize,
    w: usize,
    coefficients: &[u8],
    table: &mut [u8],
) -> Result<(), Refused>
    ensures { Backward n m w coefficients.now table.old table.new result }
{
    judge(n, m, w, coefficients, table.len())?;
    values_into(n, w, coefficients, table);
    Ok(())
}
