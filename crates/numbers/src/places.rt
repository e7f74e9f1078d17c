// Bytes in as many places as a table can have.
ghost use Rattle.std.specs.Prelude.{◌≡◌};
ghost use Rattle.numbers.specs.Bytes.{at, tabulate};

use crate::limits::Limits;
use std::array;

// The bytes, and 0 from their end on, as an array of 256.
pub fn padded(bytes: &[u8]) -> [u8; Limits::PLACES]
    ensures { result ≡ tabulate 256 (at bytes.now) }
{
    array::from_fn(|p| bytes.get(p).copied().unwrap_or(0))
}
