// What `rmquote` prints for a text: the line `quote`, products, literals, length, or the line `refused`, number, line.
// The main property, for every input: the bytes handed out begin with that line, by `Print` of specs/Print.antt, and `length` is how many they are.
ghost use Rattle.std.specs.Prelude.{◌≤◌, length};
ghost use Rattle.writing.specs.Put.{Put};
ghost use Rattle.quote_text.specs.Print.{Print};
ghost use Rattle.quote_text.specs.QuotationLine.{quotation_line};

use crate::quote::{Quotation, quote};
use numbers::refusals::Refused;
use text::print::judged_length;
use writing::line::{write_line, write_refused};
use writing::writer::Writer;
use writing::written::Written;

// What is printed for a text. The bytes past it are zero.
#[derive(Clone, Copy, Debug, PartialEq, Eq)]
pub struct PrintedQuotation;

impl PrintedQuotation {
    // The length of the longest line: the word `quote` and three numbers of four digits.
    pub const LONGEST_LINE: usize = 21;
}

// Writes the line of a quotation into the front of `out`, and gives the line's length.
#[tactic(auto, unfolding(crate::specs::QuotationLine::quotation_line, text::specs::Judged::refused_line, listings::specs::Parts::bytes))]
fn write_quotation(answer: Result<Quotation, Refused>, out: &mut [u8]) -> usize
    requires { 21 ≤ length out.old }
    ensures { Put out.old 0 (quotation_line answer) out.new result }
{
    match answer {
        Ok(quotation) => {
            let numbers = [quotation.products, quotation.literals, quotation.length];
            write_line(Writer { at: 0 }, out, b"quote", &numbers).at
        }
        Err(refused) => write_refused(refused.refusal.number(), refused.line, out),
    }
}

// What is printed for the input, of which the first 8,192 bytes are judged as the whole text.
pub fn print_quotation(input: &[u8]) -> Written<{ PrintedQuotation::LONGEST_LINE }>
    ensures { Print input.now result.bytes result.length }
{
    let judged = judged_length(input);
    let mut bytes = [0u8; PrintedQuotation::LONGEST_LINE];
    let length = write_quotation(quote(&input[..judged]), &mut bytes);
    Written { bytes, length }
}
