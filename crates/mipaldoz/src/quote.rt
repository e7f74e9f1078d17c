// The quotation. Its answer is five numbers: the refusal's number and its line, products, literals, and the length of the listing.
ghost use Rattle.std.specs.Prelude.{◌≡◌, Result};
ghost use Rattle.numbers.specs.declared.refusals.Refused.{Refused};
ghost use Rattle.table_texts.specs.Inner.Reading.{reading};
ghost use Rattle.quote_text.specs.declared.quote.Quotation.{Quotation};
ghost use Rattle.quote_text.specs.Quote.{Quote};
ghost use Rattle.quote_text.specs.Inner.Quoted.{quoted};
ghost use Rattle.mipaldoz.specs.Answers.{quotation_numbers, TellsQuotation};

use numbers::refusals::Refused;
use quote_text::quote::Quotation;

// The numbers that stand for a quotation.
#[tactic(auto, unfolding(crate::specs::Answers::quotation_numbers))]
fn quotation_numbers(r: Result<Quotation, Refused>) -> [u64; 5]
    ensures { result ≡ quotation_numbers r }
{
    match r {
        Ok(quotation) => [
            0,
            0,
            quotation.products as u64,
            quotation.literals as u64,
            quotation.length as u64,
        ],
        Err(Refused { refusal, line }) => [refusal.number() as u64, line as u64, 0, 0, 0],
    }
}

// Takes a table text and tells the products, the literals and the length of its listing, as `quote_text::quote::quote` does, which judges and refuses.
#[unsafe(no_mangle)]
pub extern "C" fn mipaldoz_quote(text: &[u8], answer: &mut [u64; 5])
    ensures meaning { (r : Result Quotation Refused) × (answer.new ≡ quotation_numbers r) × Quote text.now r }
    ensures answer { answer.new ≡ quotation_numbers (quoted (reading text.now)) }
    ensures places { TellsQuotation text.now answer.new }
{
    *answer = quotation_numbers(quote_text::quote::quote(text));
}
