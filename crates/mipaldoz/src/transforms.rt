// The transform calls. The answer is two numbers, the refusal's number and its line.
ghost use Rattle.std.specs.Prelude.{◌≡◌, length, Result};
ghost use Rattle.numbers.specs.declared.refusals.Refused.{Refused};
ghost use Rattle.transform_calls.specs.Calls.{Forward, Backward};
ghost use Rattle.mipaldoz.specs.Answers.{decided, transform_numbers};

use numbers::refusals::Refused;

// The numbers that stand for a transform call's answer.
#[tactic(auto, unfolding(crate::specs::Answers::transform_numbers))]
fn answer_numbers(r: Result<(), Refused>) -> [u64; 2]
    ensures { result ≡ transform_numbers r }
{
    match r {
        Ok(()) => [0, 0],
        Err(Refused { refusal, line }) => [refusal.number() as u64, line as u64],
    }
}

// Takes n, m, w and a table of 2^n bytes, and fills 2^n coefficients with the table's coefficients under w.
// Refuses n or m outside 1 to 8, w of 2^n or more, another length of either buffer, and a byte with a bit at m or above: then no byte
// of `coefficients` changes.
#[unsafe(no_mangle)]
pub extern "C" fn mipaldoz_forward(
    n: usize,
    m: usize,
    w: usize,
    table: &[u8],
    coefficients: &mut [u8],
    answer: &mut [u64; 2],
)
    ensures meaning { (r : Result (Unit {0}) Refused) × (answer.new ≡ transform_numbers r) × Forward n m w table.now coefficients.old coefficients.new r }
    ensures answer { answer.new ≡ transform_numbers (decided n m w table.now (length coefficients.old)) }
{
    *answer = answer_numbers(transform_calls::calls::forward(n, m, w, table, coefficients));
}

// Takes n, m, w and 2^n coefficients, and fills a table of 2^n bytes with their value at every point.
// Refuses as `mipaldoz_forward` does: then no byte of `table` changes.
#[unsafe(no_mangle)]
pub extern "C" fn mipaldoz_backward(
    n: usize,
    m: usize,
    w: usize,
    coefficients: &[u8],
    table: &mut [u8],
    answer: &mut [u64; 2],
)
    ensures meaning { (r : Result (Unit {0}) Refused) × (answer.new ≡ transform_numbers r) × Backward n m w coefficients.now table.old table.new r }
    ensures answer { answer.new ≡ transform_numbers (decided n m w coefficients.now (length table.old)) }
{
    *answer = answer_numbers(transform_calls::calls::backward(n, m, w, coefficients, table));
}
