// The transforms behind the calls and the search, over lent bytes that hold 2^low functions of n inputs side by side: byte q * 2^low + o is
// function o at q. The coefficient of t under w is the exclusive OR of the function over the points inside t, moved by w. So the forward
// transform moves every point by w and then joins each byte with those inside it, by one half step for each input; the backward one joins
// first. From one polarity to another the inputs in which the two differ are turned over, by one half step for each.
ghost use Rattle.std.specs.Prelude.{◌≡◌, ℕ, suc, ◌+◌, ◌*◌, ◌%◌, ◌^◌, ◌<◌, ◌≤◌, length};
ghost use Rattle.std.specs.Int.{from_bool};
ghost use Rattle.std.specs.Int.Bits.{bit_xor};
ghost use Rattle.numbers.specs.Bits.{bit};
ghost use Rattle.numbers.specs.Bytes.{at, tabulate};
ghost use Rattle.algebra.specs.Transform.{fits, coefficient_bytes, changed_bytes, value_bytes};
ghost use Rattle.algebra.specs.Inner.Steps.{half_step, turned_where, all_steps, RunJoined, RunRoom};
ghost use Rattle.algebra.specs.Terms.{value};

use numbers::limits::Limits;
use numbers::places::padded;

// Joins each byte of the run `to` with the byte as far into the run `from`; a run is 2^SHIFT bytes. Two runs share no byte unless they are one,
// so the compiler makes one word of a run of eight.
fn join_run<const SHIFT: usize>(to: usize, from: usize, bytes: &mut [u8])
    requires { (SHIFT < 4) × RunRoom (to * 2 ^ SHIFT) (from * 2 ^ SHIFT) (2 ^ SHIFT) (length bytes.old) }
    ensures { RunJoined (to * 2 ^ SHIFT) (from * 2 ^ SHIFT) (2 ^ SHIFT) bytes.old bytes.new }
{
    for q in 0..1 << SHIFT {
        bytes[(to << SHIFT) + q] ^= bytes[(from << SHIFT) + q];
    }
}

// Joins each of the `count` runs from the run `to` on with the run as far from `from`.
fn join_runs<const SHIFT: usize>(to: usize, from: usize, count: usize, bytes: &mut [u8])
    requires { (SHIFT < 4) × RunRoom (to * 2 ^ SHIFT) (from * 2 ^ SHIFT) (count * 2 ^ SHIFT) (length bytes.old) }
    ensures { RunJoined (to * 2 ^ SHIFT) (from * 2 ^ SHIFT) (count * 2 ^ SHIFT) bytes.old bytes.new }
{
    for q in 0..count {
        join_run::<SHIFT>(to + q, from + q, bytes);
    }
}

// The half step for input s + SHIFT, run by run.
fn half_step_runs<const SHIFT: usize>(with: bool, s: usize, bytes: &mut [u8])
    requires { (SHIFT < 4) × (s + SHIFT < 16) × (length bytes.old % 2 ^ suc (s + SHIFT) ≡ 0) }
    ensures { bytes.new ≡ tabulate (length bytes.old) (half_step (from_bool with) (s + SHIFT) (at bytes.old)) }
{
    let size: usize = 1 << s;
    let to = usize::from(with) << s;
    let from = usize::from(!with) << s;
    let count = bytes.len() >> SHIFT;
    let mut base = 0;
    // a `for` over `step_by` takes 1.15 times as long, one that counts the pairs 1.4 times
    while base < count {
        join_runs::<SHIFT>(base + to, base + from, size, bytes);
        base += 2 * size;
    }
}

// The half step for input s: each byte whose place has the value `with` there takes up the one at the place with the other value. Byte by byte
// for the three lowest inputs, eight bytes at a time for the others.
fn half_step(with: bool, s: usize, bytes: &mut [u8])
    requires { (s < 16) × (length bytes.old % 2 ^ suc s ≡ 0) }
    ensures { bytes.new ≡ tabulate (length bytes.old) (half_step (from_bool with) s (at bytes.old)) }
{
    if s < 3 {
        half_step_runs::<0>(with, s, bytes);
    } else {
        half_step_runs::<3>(with, s - 3, bytes);
    }
}

// Joins each byte with those inside it, in every function of n inputs that stands side by side in the bytes: the half step for each input,
// lowest first.
fn join_inside(low: usize, n: usize, bytes: &mut [u8])
    requires { (low ≤ 8) × (n ≤ 8) × (length bytes.old % 2 ^ (low + n) ≡ 0) }
    ensures { bytes.new ≡ tabulate (length bytes.old) (all_steps (λ s. half_step 1 (low + s)) n (at bytes.old)) }
{
    for s in 0..n {
        half_step(true, low + s, bytes);
    }
}

// Turns over the inputs that are bits of `changed`, lowest first.
fn turn_inputs(low: usize, n: usize, changed: usize, bytes: &mut [u8])
    requires { (low ≤ 8) × (n ≤ 8) × (length bytes.old % 2 ^ (low + n) ≡ 0) }
    ensures { bytes.new ≡ tabulate (length bytes.old) (all_steps (λ i. turned_where (bit i changed) (low + i)) n (at bytes.old)) }
{
    for i in 0..n {
        let turned = (changed >> i) & 1 != 0;
        if turned {
            half_step(false, low + i, bytes);
        }
    }
}

// Fills `moved` with the given bytes, each from its place moved by w.
fn move_points(w: usize, given: &[u8], moved: &mut [u8])
    requires { (q : ℕ) → q < length moved.old → bit_xor q w < length given.now }
    ensures { moved.new ≡ tabulate (length moved.old) (λ q. at given.now (bit_xor q w)) }
{
    for (q, byte) in moved.iter_mut().enumerate() {
        *byte = given[q ^ w];
    }
}

// Whether low and n are at most 8, w is a polarity of n inputs, and the two lengths are 2^(low + n).
#[tactic(auto, using(std::proofs::lemmas::Bool::Decides::nat_tests, numbers::proofs::Shifts::one_shifted), unfolding(crate::specs::Transform::fits))]
fn lengths_fit(low: usize, n: usize, w: usize, given: usize, lent: usize) -> bool
    ensures { result ≡ fits low n w given lent }
{
    low <= 8 && n <= Limits::INPUTS && w < 1 << n && given == 1 << (low + n) && lent == given
}

// The forward transform, total: fills `coefficients` with the coefficients under w of each of the 2^low functions of n inputs that stand
// side by side in `tables`. Where low or n is above 8, w is 2^n or more or a length is not 2^(low + n), it leaves the lent bytes as they were.
pub fn coefficients_into(low: usize, n: usize, w: usize, tables: &[u8], coefficients: &mut [u8])
    ensures { coefficients.new ≡ coefficient_bytes low n w tables.now coefficients.old }
{
    if lengths_fit(low, n, w, tables.len(), coefficients.len()) {
        move_points(w << low, tables, coefficients);
        join_inside(low, n, coefficients);
    }
}

// From one polarity to another, total: from the coefficients under v of 2^low functions of n inputs side by side to those under w. Where low
// or n is above 8, v or w is 2^n or more or the length is not 2^(low + n), it leaves the lent bytes as they were.
pub fn change_polarity(low: usize, n: usize, v: usize, w: usize, bytes: &mut [u8])
    ensures { bytes.new ≡ changed_bytes low n v w bytes.old }
{
    if lengths_fit(low, n, v, bytes.len(), bytes.len()) && w < 1 << n {
        turn_inputs(low, n, v ^ w, bytes);
    }
}

// The value at each point of the coefficients of one function of n inputs under w.
fn fill_values(n: usize, w: usize, coefficients: &[u8], table: &mut [u8])
    requires { (n ≤ 8) × (w < 2 ^ n) × (length table.old ≡ 2 ^ n) }
    ensures { table.new ≡ tabulate (2 ^ n) (value n (λ t. w) (at coefficients.now)) }
{
    let mut joined = padded(coefficients);
    join_inside(0, n, &mut joined);
    move_points(w, &joined, table);
}

// The backward transform, total: fills `table` with the value at each point of the coefficients of one function of n inputs under w.
// Where n is above 8, w is 2^n or more or a length is not 2^n, it leaves the lent bytes as they were.
pub fn values_into(n: usize, w: usize, coefficients: &[u8], table: &mut [u8])
    ensures { table.new ≡ value_bytes n w coefficients.now table.old }
{
    if lengths_fit(0, n, w, coefficients.len(), table.len()) {
        fill_values(n, w, coefficients, table);
    }
}
