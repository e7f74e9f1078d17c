// The minimising search over the kinds: it hands up the record of the answer.
ghost use Rattle.std.specs.Prelude.{◌≡◌, ◌^◌, ◌≤◌, ltb, length};
ghost use Rattle.numbers.specs.Bytes.{at, tabulate};
ghost use Rattle.numbers.specs.Tests.{only};
ghost use Rattle.expansions.specs.Kronecker.Letters.{letters_of};
ghost use Rattle.expansions.specs.Kronecker.Steps.{kronecker_coefficient};
ghost use Rattle.kronecker.specs.Found.{Found};
ghost use Rattle.kronecker.specs.Inner.Answer.{answer_kronecker};

use crate::expansion::KroneckerExpansion;
use crate::letter::Letter;
use crate::step::step;
use crate::walk::{KIND_BITS, walk};
use crate::weigh::{HALF_PLACES, LITERAL_BITS, PRODUCT};
use numbers::places::padded;
use numbers::refusals::is_table;

// A score's bits that are the number of its kind.
const KIND_MASK: usize = (1 << KIND_BITS) - 1;

// A charge's bits that are its literals.
const LITERAL_MASK: usize = (1 << LITERAL_BITS) - 1;

// What the walk starts from: 2^40, above the score of every kind.
const ABOVE_EVERY_SCORE: usize = 1 << 40;

// The letters of the kind with the number `kind`: its digits in base 3, that of x1 the lowest.
fn letters_of(kind: usize) -> [u8; KroneckerExpansion::INPUTS]
    ensures { result ≡ tabulate 8 (letters_of kind) }
{
    let mut letters = [0u8; KroneckerExpansion::INPUTS];
    let mut rest = kind;
    for letter in letters.iter_mut() {
        *letter = (rest % 3) as u8;
        rest /= 3;
    }
    letters
}

// The coefficients of the table in the kind of these letters, zero from 2^n on: one step an input.
fn coefficients(
    n: usize,
    letters: &[u8; KroneckerExpansion::INPUTS],
    table: &[u8],
) -> [u8; KroneckerExpansion::PLACES]
    requires { (n ≤ 8) × (length table.now ≡ 2 ^ n) }
    ensures { result ≡ tabulate 256 (λ t. only (ltb t (2 ^ n)) (kronecker_coefficient n (at letters.now) (at table.now) t)) }
{
    let mut values = padded(table);
    let size: usize = 1 << n;
    for i in 0..n {
        values = step(i, Letter::from(letters[i]), size, &values);
    }
    values
}

// The record of the answer: the lowest score of all kinds, taken apart, and the coefficients of its kind. The number of outputs is not
// needed: an output that there is not is zero at every point.
fn search_kinds(n: usize, table: &[u8]) -> KroneckerExpansion
    requires { (1 ≤ n) × (n ≤ 8) × (length table.now ≡ 2 ^ n) }
    ensures { result ≡ answer_kronecker n (at table.now) }
{
    let values = padded(table);
    let weights = [PRODUCT; HALF_PLACES];
    let best = walk(n, 0, 0, 1, &values, &weights, ABOVE_EVERY_SCORE);
    let charge = best >> KIND_BITS;
    let letters = letters_of(best & KIND_MASK);
    let coefficients = coefficients(n, &letters, table);
    let products = charge >> LITERAL_BITS;
    let literals = charge & LITERAL_MASK;
    KroneckerExpansion {
        coefficients,
        letters,
        products,
        literals,
    }
}

// The record of the answer for a table of n inputs and m outputs, among the expansions of all 3^n kinds. Where these are not such numbers, or
// the bytes not such a table, it hands up the empty record; the calls refuse before they get here.
pub fn find_kronecker(n: usize, m: usize, table: &[u8]) -> KroneckerExpansion
    ensures { Found n m table.now result }
{
    if is_table(n, m, table) {
        search_kinds(n, table)
    } else {
        KroneckerExpansion::empty()
    }
}
