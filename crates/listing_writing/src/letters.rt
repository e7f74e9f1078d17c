// The letters of a Kronecker expansion and the cubes of its terms, written into a lent buffer. `letters` holds the letter of each input from x1 up, by
// its number: S is 0, P is 1, and every number above 1 is N.
ghost use Rattle.std.specs.Prelude.{◌≡◌, ◌+◌, ◌%◌, ◌≤◌, length};
ghost use Rattle.numbers.specs.Bytes.{at};
ghost use Rattle.expansions.specs.Kronecker.Letters.{literal_of};
ghost use Rattle.listings.specs.Kronecker.{letter_byte, letter_bytes, literal_byte, kronecker_cube};
ghost use Rattle.kronecker.specs.Letters.{letter_number};
ghost use Rattle.writing.specs.Put.{Put};

use kronecker::expansion::KroneckerExpansion;
use kronecker::letter::Letter;
use writing::writer::Writer;

// The character of a letter.
#[tactic(auto, unfolding(listings::specs::Kronecker::letter_byte, kronecker::specs::Letters::letter_number))]
fn letter_byte(letter: Letter) -> u8
    ensures { result ≡ letter_byte (letter_number letter) }
{
    match letter {
        Letter::Shannon => b'S',
        Letter::Positive => b'P',
        Letter::Negative => b'N',
    }
}

// The character of an input in a cube, by the input's letter and the lowest bit of `t`: a Shannon input has a literal at either bit, and a Davio input
// one where the bit is 1, complemented under N.
#[tactic(auto, unfolding(listings::specs::Kronecker::literal_byte, expansions::specs::Kronecker::Letters::literal_of, kronecker::specs::Letters::letter_number))]
fn literal_byte(letter: Letter, t: usize) -> u8
    ensures { result ≡ literal_byte (literal_of (letter_number letter) (t % 2)) }
{
    match (letter, t & 1) {
        (Letter::Shannon, 0) => b'0',
        (_, 0) => b'-',
        (Letter::Negative, _) => b'0',
        _ => b'1',
    }
}

// The n letters, that of the highest input first.
#[tactic(auto, using(crate::proofs::letters::Characters::letter_byte_numbered), unfolding(listings::specs::Kronecker::letter_bytes))]
pub fn write_letters(
    start: Writer,
    out: &mut [u8],
    n: usize,
    letters: &[u8; KroneckerExpansion::INPUTS],
) -> Writer
    requires { (n ≤ 8) × (start.at + n ≤ length out.old) }
    ensures { Put out.old start.at (letter_bytes n (at letters.now)) out.new result.at }
{
    start.descending(out, n, |i| letter_byte(Letter::from(letters[i])))
}

// The n characters of the cube of the term t, the highest input first.
#[tactic(auto, using(kronecker::proofs::Letters::literal_numbered), unfolding(listings::specs::Kronecker::kronecker_cube))]
pub fn write_cube(
    start: Writer,
    out: &mut [u8],
    n: usize,
    letters: &[u8; KroneckerExpansion::INPUTS],
    t: usize,
) -> Writer
    requires { (n ≤ 8) × (start.at + n ≤ length out.old) }
    ensures { Put out.old start.at (kronecker_cube n (at letters.now) t) out.new result.at }
{
    start.descending(out, n, |i| literal_byte(Letter::from(letters[i]), t >> i))
}
