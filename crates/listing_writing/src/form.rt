// Writing the listing of an expansion of a class with mixed inputs: `form` or `form2`, `inv`, a line for each product, `end`.
ghost use Rattle.std.specs.Prelude.{◌≡◌, ◌+◌, ◌^◌, ◌≤◌, ◌<◌, length};
ghost use Rattle.numbers.specs.Bytes.{at};
ghost use Rattle.expansions.specs.Members.{polarity};
ghost use Rattle.listings.specs.Listing.{cube, inv_line, listing};
ghost use Rattle.listings.specs.Inner.Listable.{Listable};
ghost use Rattle.writing.specs.Put.{Put};
ghost use Rattle.listing_writing.specs.Write.{WriteListing};

use crate::terms::{Cubes, TERM, end_term, write_end, write_terms};
use expansions::families::Family;
use expansions::kinds::Class;
use first_lines::first::{mark_length, word_length, write_form};
use numbers::refusals::Refusal;
use search::expansion::Expansion;
use search::polarity::term_polarity;
use writing::line::digits_of;
use writing::writer::Writer;

// The bytes of the first two lines and the last one besides the first word, the `f` of the field k, the digits and the outputs: the words `inv` and
// `end`, eight tabs and three line ends.
const FRAME: usize = 17;

// A member of a class, by which the cubes of the terms are written: its n and k, its mixed set M, its fixed polarity i and its block polarities.
#[derive(Clone, Copy)]
struct Member {
    class: Class,
    n: usize,
    k: usize,
    mixed: usize,
    fixed: usize,
    blocks: [u8; Expansion::PLACES],
    ghost sized: { (n ≤ 8) × (mixed < 2 ^ n) × (fixed < 2 ^ n) },
}

impl Cubes for Member {
    ghost cube_of = { λ e t. cube e.n t (polarity e.class e.n e.k e.mixed e.fixed (at e.blocks) t) };

    fn write_cube(&self, start: Writer, out: &mut [u8], t: usize) -> Writer {
        let w = term_polarity(
            self.class,
            self.n,
            self.k,
            self.mixed,
            self.fixed,
            &self.blocks,
            t,
        );
        start.cube(out, self.n, t, w)
    }
}

// The second line: `inv`, and the outputs that are inverted.
fn write_inv(start: Writer, out: &mut [u8], m: usize, inverted: u8) -> Writer
    requires { (m ≤ 8) × (start.at + (5 + m) ≤ length out.old) }
    ensures { Put out.old start.at (inv_line m inverted) out.new result.at }
{
    end_term(start.word(out, b"inv"), out, m, inverted)
}

// How many bytes the listing of an expansion of a class has, of n inputs, m outputs and k mixed inputs, for a part of the family. The record states the
// products that its coefficients have.
pub fn listing_length(
    class: Class,
    family: Family,
    n: usize,
    m: usize,
    k: usize,
    e: Expansion,
) -> usize
    requires { Listable n m e }
    ensures { result ≡ length (listing class family n m k e) }
{
    let counts = [e.mixed, e.fixed, e.products, e.literals];
    let digits = digits_of(&[n, m, k]) + digits_of(&counts);
    let frame = FRAME + word_length(family) + mark_length(class) + m;
    frame + digits + e.products * (n + m + TERM)
}

// Writes that listing into the front of `out`, and gives its length. Where `out` is shorter than the listing it refuses, and changes no byte; bytes past
// the listing keep what they held.
pub fn write_listing(
    class: Class,
    family: Family,
    n: usize,
    m: usize,
    k: usize,
    e: Expansion,
    out: &mut [u8],
) -> Result<usize, Refusal>
    requires { Listable n m e }
    ensures { WriteListing (listing class family n m k e) out.old result out.new }
{
    if out.len() < listing_length(class, family, n, m, k, e) {
        return Err(Refusal::OutputRoom);
    }
    let counts = [e.mixed, e.fixed, e.products, e.literals]; // those of the first line
    let second = write_form(class, family, Writer::START, out, &[n, m], k, &counts);
    let terms = write_inv(second, out, m, e.inverted);
    let member = Member {
        class,
        n,
        k,
        mixed: e.mixed,
        fixed: e.fixed,
        blocks: e.blocks,
    };
    let end = write_terms(&member, terms, out, n, m, &e.coefficients);
    Ok(write_end(end, out).at)
}
