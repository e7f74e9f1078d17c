// The quotation: the products, the literals and the length of the listing that the text call would write, from the text alone.
// The main property, for every text: the numbers are those of the listing of the answer, whatever buffer the text call would be lent, and a text that the one
// refuses for its own sake the other refuses by the same number and line. It finds the answer as the text call does, by `table_answers`, and knows the length of
// the listing from its record; no listing is written.
ghost use Rattle.std.specs.Prelude.{◌≡◌};
ghost use Rattle.table_texts.specs.Accepted.{Accepted};
ghost use Rattle.text.specs.Inner.Compiled.{answer_listing};
ghost use Rattle.quote_text.specs.Quote.{Quote};
ghost use Rattle.quote_text.specs.Numbers.{listing_numbers};

use listing_writing::form::listing_length;
use listing_writing::kron::kronecker_length;
use numbers::limits::Limits;
use numbers::refusals::Refused;
use table_answers::answers::{Answer, answer_of};
use table_texts::read::read_table;
use table_texts::sizes::Design;

// The numbers of a listing: those that its first line states, and its length in bytes.
#[derive(Clone, Copy, Debug, PartialEq, Eq)]
pub struct Quotation {
    pub products: usize,
    pub literals: usize,
    pub length: usize,
}

// The numbers of the answer, by the kind of k.
fn quote_table(design: Design, table: &[u8]) -> Quotation
    requires { Accepted design table.now }
    ensures { result ≡ listing_numbers (answer_listing design table.now) }
{
    match answer_of(design, table) {
        Answer::Mixed(sizes, expansion) => Quotation {
            products: expansion.products, // of a class
            literals: expansion.literals, // of a class
            length: listing_length(
                sizes.class,
                sizes.family,
                sizes.n,
                sizes.m,
                sizes.k,
                expansion,
            ),
        },
        Answer::Kronecker { n, m, expansion } => Quotation {
            products: expansion.products, // of the kinds
            literals: expansion.literals, // of the kinds
            length: kronecker_length(n, m, expansion),
        },
    }
}

// Takes a table text, and gives the products, the literals and the length in bytes of the listing of its answer. Refuses a text that is none with its number
// and line.
pub fn quote(text: &[u8]) -> Result<Quotation, Refused>
    ensures { Quote text.now result }
{
    let mut table = [0u8; Limits::PLACES];
    match read_table(text, &mut table) {
        Ok(design) => Ok(quote_table(design, &table)),
        Err(refused) => Err(refused), // no `?`: the must-fail edits change this value alone
    }
}
