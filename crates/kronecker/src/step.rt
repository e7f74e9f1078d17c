// One step of the expansion, from one array into another: for each pair of places that differ in one input only, what the step leaves
// at the place without it and at the place with it.
ghost use Rattle.std.specs.Prelude.{◌≡◌, suc, ◌+◌, ◌%◌, ◌^◌, ◌≤◌, ◌<◌, length};
ghost use Rattle.numbers.specs.Bytes.{at};
ghost use Rattle.expansions.specs.Kronecker.Steps.{step_value};
ghost use Rattle.expansions.specs.Inner.KroneckerWalk.{RunStepped, Stepped};
ghost use Rattle.kronecker.specs.Letters.{letter_number};

use crate::expansion::KroneckerExpansion;
use crate::letter::Letter;

// What the step leaves at the term without the input, from the values at 0 and at 1.
#[tactic(auto, unfolding(crate::specs::Letters::letter_number, expansions::specs::Kronecker::Steps::step_value))]
fn without_input(letter: Letter, first: u8, second: u8) -> u8
    ensures { result ≡ step_value (letter_number letter) 0 first second }
{
    match letter {
        Letter::Shannon | Letter::Positive => first,
        Letter::Negative => second,
    }
}

// What it leaves at the term with the input.
#[tactic(auto, unfolding(crate::specs::Letters::letter_number, expansions::specs::Kronecker::Steps::step_value))]
fn with_input(letter: Letter, first: u8, second: u8) -> u8
    ensures { result ≡ step_value (letter_number letter) 1 first second }
{
    match letter {
        Letter::Shannon => second,
        Letter::Positive | Letter::Negative => first ^ second,
    }
}

// The step on the `half` pairs of places from `base` on, `half` places apart.
fn step_run(
    base: usize,
    half: usize,
    letter: Letter,
    from: &[u8; KroneckerExpansion::PLACES],
    to: &mut [u8; KroneckerExpansion::PLACES],
)
    requires { (base + half + half ≤ 256) × (length to.old ≡ 256) }
    ensures to_len { length to.new ≡ 256 }
    ensures run_stepped { RunStepped base half (letter_number letter) half (at from.now) (at to.old) (at to.new) }
{
    for q in 0..half {
        let lower = base + q;
        let upper = lower + half;
        let first = from[lower];
        let second = from[upper];
        to[lower] = without_input(letter, first, second);
        to[upper] = with_input(letter, first, second);
    }
}

// The step for input i by its letter, at the first `size` places.
pub fn step(
    i: usize,
    letter: Letter,
    size: usize,
    from: &[u8; KroneckerExpansion::PLACES],
) -> [u8; KroneckerExpansion::PLACES]
    requires { (i < 8) × (size ≤ 256) × (size % 2 ^ suc i ≡ 0) }
    ensures { Stepped i (letter_number letter) size (at from.now) (at result) }
{
    let half: usize = 1 << i;
    let mut to = [0u8; KroneckerExpansion::PLACES];
    for run in 0..size >> (i + 1) {
        step_run(2 * half * run, half, letter, from, &mut to);
    }
    to
}
