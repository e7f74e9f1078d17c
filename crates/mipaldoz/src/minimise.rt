// The minimising call. The answer is seven numbers: the refusal's number and its line, M, i, products, literals and the inversion mask.
ghost use Rattle.std.specs.Prelude.{◌≡◌, length, Result};
ghost use Rattle.numbers.specs.declared.refusals.Refused.{Refused};
ghost use Rattle.minimise_calls.specs.declared.calls.Minimum.{Minimum};
ghost use Rattle.minimise_calls.specs.Calls.{Minimise};
ghost use Rattle.mipaldoz.specs.Answers.{decided_minimum, minimum_numbers};

use minimise_calls::calls::{Minimum, minimise};
use numbers::refusals::Refused;

// The numbers that stand for the minimising call's answer.
#[tactic(auto, unfolding(crate::specs::Answers::minimum_numbers))]
fn minimum_numbers(r: Result<Minimum, Refused>) -> [u64; 7]
    ensures { result ≡ minimum_numbers r }
{
    match r {
        Ok(found) => [
            0,
            0,
            found.mixed as u64,
            found.fixed as u64,
            found.products as u64,
            found.literals as u64,
            u64::from(found.inverted),
        ],
        Err(Refused { refusal, line }) => [refusal.number() as u64, line as u64, 0, 0, 0, 0, 0],
    }
}

// Takes n, m, k and a table of 2^n bytes, and fills 2^n coefficients and 2^(n−k) block polarities, as `minimise_calls::calls::minimise` does, which
// judges and refuses.
#[unsafe(no_mangle)]
pub extern "C" fn mipaldoz_minimise(
    n: usize,
    m: usize,
    k: usize,
    table: &[u8],
    coefficients: &mut [u8],
    blocks: &mut [u8],
    answer: &mut [u64; 7],
)
    ensures meaning { (r : Result Minimum Refused) × (answer.new ≡ minimum_numbers r)
        × Minimise n m k table.now coefficients.old coefficients.new blocks.old blocks.new r }
    ensures answer { answer.new ≡ minimum_numbers (decided_minimum n m k table.now (length coefficients.old) (length blocks.old)) }
{
    *answer = minimum_numbers(minimise(n, m, k, table, coefficients, blocks));
}
