// The walk over the 3^n kinds, which share their steps: an array for each depth, and three places that follow each place.
// It goes from x1 up, so that a step at the greatest depth, where there are most, pairs the places furthest apart. What the order of the
// walk then does not give, that equal costs go to the letters that come first from xn down, a kind's score gives: its charge, then its
// number, as one number. The last input makes no step: what its three kinds cost follows from the two halves and their exclusive OR.
// The main property: `walk` hands up the lowest of `best` and the scores of all the kinds that have the letters chosen so far.
ghost use Rattle.std.specs.Prelude.{◌≡◌, suc, ◌+◌, ◌*◌, ◌≤◌, ◌<◌};
ghost use Rattle.numbers.specs.Bytes.{at};
ghost use Rattle.expansions.specs.Inner.KroneckerWalk.{Place, Walked};

use crate::expansion::KroneckerExpansion;
use crate::letter::Letter;
use crate::step::step;
use crate::weigh::{HALF_PLACES, LITERAL_BITS, half_charges, weigh};

// How many of a score's bits are the number of its kind. The charge stands above them.
pub const KIND_BITS: usize = 13;

// The room for a kind's number in its score: there are 3^8 = 6,561 kinds at most.
const KINDS: usize = 1 << KIND_BITS;

// The score of the kind with the number `kind`: its charge, then its number.
fn kind_score(charge: u32, kind: usize) -> usize
    requires { kind < 8192 }
    ensures { result ≡ charge * 8192 + kind }
{
    (charge as usize) * KINDS + kind
}

// Tries the three kinds that the letter of the last input makes. A Shannon input adds a literal to every product, a Davio input one to
// every product that has it.
fn try_last(
    m: usize,
    kind: usize,
    power: usize,
    values: &[u8; KroneckerExpansion::PLACES],
    weights: &[u32; HALF_PLACES],
    best: usize,
) -> usize
    requires { Place (suc m) m kind power (at values.now) (at weights.now) }
    ensures { Walked (suc m) m kind power (at values.now) (at weights.now) best result }
{
    let halves = half_charges(m, values, weights);
    let lower_products = halves.lower >> LITERAL_BITS;
    let upper_products = halves.upper >> LITERAL_BITS;
    let davio_products = halves.both >> LITERAL_BITS;
    let shannon = kind_score(
        halves.lower + lower_products + halves.upper + upper_products,
        kind,
    );
    let positive = kind_score(halves.lower + halves.both + davio_products, kind + power);
    let negative = kind_score(
        halves.upper + halves.both + davio_products,
        kind + power + power,
    );
    best.min(shannon).min(positive).min(negative)
}

// Tries every kind that has the letters chosen for the inputs below i: the digits of `kind`, `power` being 3^i. `values` is the table
// after the steps for those inputs, and `weights` has what their terms weigh. Shannon's step keeps every value, so it needs no array.
pub fn walk(
    n: usize,
    i: usize,
    kind: usize,
    power: usize,
    values: &[u8; KroneckerExpansion::PLACES],
    weights: &[u32; HALF_PLACES],
    best: usize,
) -> usize
    requires { Place n i kind power (at values.now) (at weights.now) }
    ensures { Walked n i kind power (at values.now) (at weights.now) best result }
{
    if i + 1 == n {
        return try_last(i, kind, power, values, weights, best);
    }
    let size: usize = 1 << n;
    let above = power * 3;
    let every = weigh(i, 1, weights);
    let shannon = walk(n, i + 1, kind, above, values, &every, best);
    let some = weigh(i, 0, weights);
    let plain = step(i, Letter::Positive, size, values);
    let positive = walk(n, i + 1, kind + power, above, &plain, &some, shannon);
    let other = step(i, Letter::Negative, size, values);
    walk(
        n,
        i + 1,
        kind + power + power, // the letter N at input i
        above,
        &other,
        &some,
        positive,
    )
}
