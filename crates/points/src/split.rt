// Bits in a mask, closed up lowest first, and opened out again: block and place of a number, and the way back. Nothing divides: a bit is had by
// a shift and a mask. `split` and `spread` pass the inputs from the lowest on; `used` is the number of inputs of the mask passed so far.
ghost use Rattle.std.specs.Prelude.{◌≡◌, ◌≤◌, ◌<◌, ◌^◌};
ghost use Rattle.std.specs.Int.Count.{ones_in};
ghost use Rattle.expansions.specs.ClosedUp.{ClosedUp, OpenedOut, IsSplit};
ghost use Rattle.expansions.specs.Members.{block, place};
ghost use Rattle.expansions.specs.Split as Split;

// The bits of a number outside the mixed set and those in it, each closed up.
#[derive(Clone, Copy)]
pub struct Parts {
    pub block: usize,
    pub place: usize,
}

// The number of inputs in the mask.
pub fn ones_in(n: usize, mask: usize) -> usize
    requires { n ≤ 8 }
    ensures { result ≡ ones_in n mask }
{
    let inputs = (1 << n) - 1;
    (mask & inputs).count_ones() as usize
}

// Block and place of x, a point or a term: the bit of x at an input of the mixed set goes to the place, that at another input to the block,
// each above those that went there before.
pub fn split(n: usize, mixed: usize, x: usize) -> Parts
    requires { n ≤ 8 }
    ensures { (result.block ≡ block n mixed x) × (result.place ≡ place n mixed x) × IsSplit n mixed x result.block result.place }
{
    let mut block = 0;
    let mut place = 0;
    let mut used = 0;
    for i in 0..n {
        let inside = (mixed >> i) & 1;
        place |= ((x >> i) & inside) << used;
        block |= ((x >> i) & (inside ^ 1)) << (i - used);
        used += inside;
    }
    Parts { block, place }
}

// The bits of x at the inputs of the mask, closed up.
pub fn gather(n: usize, mask: usize, x: usize) -> usize
    requires { n ≤ 8 }
    ensures value { result ≡ Split.gather n mask x }
    ensures bits { ClosedUp n mask x result }
{
    split(n, mask, x).place
}

// The bits of y at the inputs of the mask, and 0 at the others.
pub fn spread(n: usize, mask: usize, y: usize) -> usize
    requires { n ≤ 8 }
    ensures value { result ≡ Split.spread n mask y }
    ensures bits { OpenedOut n mask y result }
{
    let mut x = 0;
    let mut used = 0;
    for b in 0..n {
        let inside = (mask >> b) & 1;
        x |= ((y >> used) & inside) << b;
        used += inside;
    }
    x
}

// The inputs outside the mixed set.
pub fn outside(n: usize, mixed: usize) -> usize
    requires { (n ≤ 8) × (mixed < 2 ^ n) }
    ensures { result ≡ Split.outside n mixed }
{
    let all: usize = 1 << n;
    all - 1 - mixed
}
