// The second line of a listing: `inv` and a character for each output, `1` where it is inverted. They may all be `0`.
ghost use Rattle.std.specs.Prelude.{◌≡◌, ◌≤◌};
ghost use Rattle.listing_texts.specs.Inv.{inv_said};

use fields::values::mask;
use fields::words::{field, headed};

// The inversion mask that a second line says.
#[tactic(auto, unfolding(crate::specs::Inv::inv_said, listings::specs::Parts::bytes))]
pub fn inv_line(m: usize, line: &[u8]) -> Option<usize>
    requires { m ≤ 8 }
    ensures { result ≡ inv_said m line.now }
{
    if !headed(2, b"inv", line) {
        return None;
    }
    mask(m, field(line, 1))
}
