// A line of a word and numbers, as the first line of a listing and every line that a program prints are.
ghost use Rattle.std.specs.Prelude.{◌≡◌, [], ◌∷◌, map, ◌+◌, ◌≤◌, length};
ghost use Rattle.listings.specs.Parts.{bytes};
ghost use Rattle.listings.specs.Listing.{tabbed, line, decimal};
ghost use Rattle.listings.specs.Inner.Lengths.{digits_of};
ghost use Rattle.writing.specs.Put.{Put};

use crate::writer::{Writer, digit_count};

// How many digits the numbers have, together.
pub fn digits_of(numbers: &[usize]) -> usize
    requires { length numbers.now ≤ 7 }
    ensures { result ≡ digits_of numbers.now }
{
    let mut digits = 0;
    for x in numbers {
        digits += digit_count(*x);
    }
    digits
}

// The numbers, each after a tab.
pub fn write_numbers(start: Writer, out: &mut [u8], numbers: &[usize]) -> Writer
    requires { (length numbers.now ≤ 7) × (start.at + (length numbers.now + digits_of numbers.now) ≤ length out.old) }
    ensures { Put out.old start.at (tabbed (map decimal numbers.now)) out.new result.at }
{
    let mut place = start;
    for x in numbers {
        place = place.byte(out, b'\t').number(out, *x);
    }
    place
}

// The line of a word and numbers.
pub fn write_line(start: Writer, out: &mut [u8], word: &[u8], numbers: &[usize]) -> Writer
    requires { (length numbers.now ≤ 7) × (start.at + (length word.now + (length numbers.now + digits_of numbers.now) + 1) ≤ length out.old) }
    ensures { Put out.old start.at (line word.now (map decimal numbers.now)) out.new result.at }
{
    let fields = start.word(out, word);
    write_numbers(fields, out, numbers).byte(out, b'\n')
}

// Writes the line that tells a refusal into the front of `out`, and gives its length: `refused`, the refusal's number, and its place, the number of a line.
pub fn write_refused(number: usize, place: usize, out: &mut [u8]) -> usize
    requires { 18 ≤ length out.old }
    ensures { Put out.old 0 (line (bytes "refused") (decimal number ∷ decimal place ∷ [])) out.new result }
{
    write_line(Writer::START, out, b"refused", &[number, place]).at
}
