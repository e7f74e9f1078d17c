// The fitter's check. Its answer is four numbers: the refusal's number and its line, the outcome, and the point that differs.
ghost use Rattle.std.specs.Prelude.{◌≡◌, Result};
ghost use Rattle.numbers.specs.declared.refusals.Refused.{Refused};
ghost use Rattle.table_texts.specs.Inner.Reading.{reading};
ghost use Rattle.fitter.specs.declared.check.Verdict.{Verdict};
ghost use Rattle.fitter.specs.Check.{Check};
ghost use Rattle.fitter.specs.Inner.Answer.{checked};
ghost use Rattle.mipaldoz.specs.Answers.{check_numbers};

use fitter::check::Verdict;
use numbers::refusals::Refused;

// The numbers that stand for the check's answer.
#[tactic(auto, unfolding(crate::specs::Answers::check_numbers))]
fn check_numbers(r: Result<Verdict, Refused>) -> [u64; 4]
    ensures { result ≡ check_numbers r }
{
    match r {
        Ok(Verdict::Same) => [0, 0, 1, 0],
        Ok(Verdict::Differs { point }) => [0, 0, 2, point as u64],
        Ok(Verdict::NotOfClass) => [0, 0, 3, 0],
        Err(Refused { refusal, line }) => [refusal.number() as u64, line as u64, 0, 0],
    }
}

// Takes a table text and a listing and tells the check's answer, as `fitter::check::check` does, which judges and refuses.
#[unsafe(no_mangle)]
pub extern "C" fn mipaldoz_check(text: &[u8], listing: &[u8], answer: &mut [u64; 4])
    ensures meaning { (r : Result Verdict Refused) × (answer.new ≡ check_numbers r) × Check text.now listing.now r }
    ensures answer { answer.new ≡ check_numbers (checked (reading text.now) listing.now) }
{
    *answer = check_numbers(fitter::check::check(text, listing));
}
