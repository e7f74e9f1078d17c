// The first line of a listing: `form` or `form2`, n, m, k, M, i, products, literals, where k is a digit or, of the free class, `f` and a digit. Whether
// its family, its class and its numbers fit the table and the lines is judged later, since a line that breaks the grammar is refused first.
ghost use Rattle.std.specs.Prelude.{◌≡◌};
ghost use Rattle.listings.specs.Parts.{field};
ghost use Rattle.fields.specs.Fields.{number};
ghost use Rattle.listing_texts.specs.Form.{sizes_of, form_of, first_line};

use fields::heading::{Heading, heading_of};
use fields::values::{Mixed, mixed_of, read_number};
use fields::words::{family_of, field};
use table_texts::sizes::Sizes;

// What a first line states: the sizes with the class and the family, the mixed set M and the fixed polarity i as masks, and the counts.
#[derive(Clone, Copy, Debug, PartialEq, Eq)]
pub struct Form {
    pub sizes: Sizes,
    pub mixed: usize,
    pub fixed: usize,
    pub products: usize,
    pub literals: usize,
}

// The sizes of a first line, where each field says its own, with the family.
fn sizes_of(heading: Option<Heading>, mixed: Option<Mixed>) -> Option<Sizes>
    ensures { result ≡ sizes_of heading mixed }
{
    let Heading { family, n, m } = heading?;
    let Mixed { class, k } = mixed?;
    Some(Sizes {
        n,
        m,
        class,
        k,
        family,
    })
}

// The sizes and the other numbers of a first line, where each is read.
fn form_of(
    sizes: Option<Sizes>,
    mixed: Option<usize>,
    fixed: Option<usize>,
    products: Option<usize>,
    literals: Option<usize>,
) -> Option<Form>
    ensures { result ≡ form_of sizes mixed fixed products literals }
{
    Some(Form {
        sizes: sizes?,
        mixed: mixed?,
        fixed: fixed?,
        products: products?,
        literals: literals?,
    })
}

// The number that field i of a line says.
fn number_in(line: &[u8], i: usize) -> Option<usize>
    ensures { result ≡ number 4 (field i line.now) }
{
    read_number(4, field(line, i))
}

// The first line: its word is that of a family, its numbers have one to four digits, and k has one, after an `f` in the free class.
#[tactic(auto, unfolding(crate::specs::Form::first_line, listings::specs::Listing::form_word, listings::specs::Parts::bytes))]
pub fn first_line(line: &[u8]) -> Option<Form>
    ensures { result ≡ first_line line.now }
{
    let heading = heading_of(
        family_of(8, b"form", b"form2", line),
        number_in(line, 1),
        number_in(line, 2),
    );
    let sizes = sizes_of(heading, mixed_of(field(line, 3)));
    form_of(
        sizes,
        number_in(line, 4),
        number_in(line, 5),
        number_in(line, 6),
        number_in(line, 7),
    )
}
