// The numbers that have no bit outside a mask, in ascending order.
ghost use Rattle.std.specs.Prelude.{◌≡◌, ℕ, suc, ◌^◌, ◌≤◌, ◌<◌};
ghost use Rattle.expansions.specs.ClosedUp.{OpenedOut};
ghost use Rattle.expansions.specs.Split.{spread};

use crate::split::outside;

// From the number opened out of y to that opened out of y + 1, without opening it out: every bit outside the mask is added, so that the 1 is
// carried past them to the next input of the mask. After the last comes 0.
pub fn next_point(n: usize, mask: usize, x: usize) -> usize
    requires { (n ≤ 8) × (mask < 2 ^ n) × (x < 2 ^ n) }
    ensures by_index { (y : ℕ) → x ≡ spread n mask y → result ≡ spread n mask (suc y) }
    ensures bits { (y : ℕ) → OpenedOut n mask y x → OpenedOut n mask (suc y) result }
{
    (x + outside(n, mask) + 1) & mask
}
