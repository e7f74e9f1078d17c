// Writing the listing of a Kronecker expansion: `kron`, a line for each product, `end`.
ghost use Rattle.std.specs.Prelude.{◌≡◌, ◌+◌, ◌^◌, ◌≤◌, length};
ghost use Rattle.numbers.specs.Bytes.{at};
ghost use Rattle.listings.specs.Kronecker.{kronecker_line, kronecker_cube};
ghost use Rattle.writing.specs.Put.{Put};
ghost use Rattle.listing_writing.specs.Write.{record_listing, WriteListing, KroneckerListable};

use crate::letters::{write_cube, write_letters};
use crate::terms::{Cubes, TERM, write_end, write_terms};
use kronecker::expansion::KroneckerExpansion;
use numbers::refusals::Refusal;
use writing::line::{digits_of, write_numbers};
use writing::writer::Writer;

// The bytes of the first and the last line that are neither digits nor letters: two words, five tabs and two line ends.
const FRAME: usize = 14;

// The letters of n inputs, by which the cubes of the terms are written.
#[derive(Clone, Copy)]
struct Letters {
    n: usize,
    letters: [u8; KroneckerExpansion::INPUTS],
    ghost sized: { n ≤ 8 },
}

impl Cubes for Letters {
    ghost cube_of = { λ l. kronecker_cube l.n (at l.letters) };

    fn write_cube(&self, start: Writer, out: &mut [u8], t: usize) -> Writer {
        write_cube(start, out, self.n, &self.letters, t)
    }
}

// The first line: `kron`, n, m, the letters, products, literals.
fn write_kron(
    start: Writer,
    out: &mut [u8],
    n: usize,
    m: usize,
    letters: &[u8; KroneckerExpansion::INPUTS],
    products: usize,
    literals: usize,
) -> Writer
    requires { (n ≤ 8) × (start.at + length (kronecker_line n m (at letters.now) products literals) ≤ length out.old) }
    ensures { Put out.old start.at (kronecker_line n m (at letters.now) products literals) out.new result.at }
{
    let sizes = write_numbers(start.word(out, b"kron"), out, &[n, m]);
    let last = write_letters(sizes.byte(out, b'\t'), out, n, letters);
    write_numbers(last, out, &[products, literals]).byte(out, b'\n')
}

// How many bytes the listing of a Kronecker expansion of n inputs and m outputs has. The record states the products that its coefficients have.
pub fn kronecker_length(n: usize, m: usize, e: KroneckerExpansion) -> usize
    requires { KroneckerListable n m e }
    ensures { result ≡ length (record_listing n m e) }
{
    let digits = digits_of(&[n, m, e.products, e.literals]);
    FRAME + n + digits + e.products * (n + m + TERM)
}

// Writes that listing into the front of `out`, and gives its length. Where `out` is shorter than the listing it refuses, and changes no byte; bytes past
// the listing keep what they held.
pub fn write_kronecker(
    n: usize,
    m: usize,
    e: KroneckerExpansion,
    out: &mut [u8],
) -> Result<usize, Refusal>
    requires { KroneckerListable n m e }
    ensures { WriteListing (record_listing n m e) out.old result out.new }
{
    if out.len() < kronecker_length(n, m, e) {
        return Err(Refusal::OutputRoom);
    }
    let terms = write_kron(Writer::START, out, n, m, &e.letters, e.products, e.literals);
    let letters = Letters {
        n,
        letters: e.letters,
    };
    let end = write_terms(&letters, terms, out, n, m, &e.coefficients);
    Ok(write_end(end, out).at)
}
