// What the rows of a listing give at a point, and the lowest point at which that, with the marked outputs inverted, is not the table's byte.
ghost use Rattle.std.specs.Prelude.{◌≡◌, ◌^◌, ◌≤◌};
ghost use Rattle.numbers.specs.Bytes.{at};
ghost use Rattle.algebra.specs.Terms.{holds, value};
ghost use Rattle.fitter.specs.Differences.{inverted_value, first_difference};
ghost use Rattle.fitter.specs.Inner.Differences.{difference_of};

use search::expansion::Expansion;

// Whether the literals of the term t are all true at the point p, where w has the term's complemented inputs.
#[tactic(auto, unfolding(algebra::specs::Terms::holds, numbers::specs::Bits::inside))]
fn holds(t: usize, w: usize, p: usize) -> bool
    ensures { result ≡ holds t w p }
{
    t & (p ^ w) == t
}

// The exclusive OR of the outputs of the terms that are true at p.
fn value_at(
    n: usize,
    coefficients: &[u8; Expansion::PLACES],
    complements: &[u8; Expansion::PLACES],
    p: usize,
) -> u8
    requires { n ≤ 8 }
    ensures { result ≡ value n (at complements.now) (at coefficients.now) p }
{
    let mut sum = 0;
    for t in 0..1 << n {
        if holds(t, usize::from(complements[t]), p) {
            sum ^= coefficients[t];
        }
    }
    sum
}

// The lowest of the 2^n points at which the rows, with the outputs of the mask inverted, do not give the table's byte.
pub fn first_difference(
    n: usize,
    coefficients: &[u8; Expansion::PLACES],
    complements: &[u8; Expansion::PLACES],
    inverted: u8,
    table: &[u8; Expansion::PLACES],
) -> Option<usize>
    requires { n ≤ 8 }
    ensures { result ≡ difference_of (first_difference n (inverted_value n (at complements.now) (at coefficients.now) inverted) (at table.now)) }
{
    (0..1 << n).find(|&p| value_at(n, coefficients, complements, p) ^ inverted != table[p])
}
