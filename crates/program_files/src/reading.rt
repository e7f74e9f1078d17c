// Reading into a lent buffer until it is full.
ghost use Rattle.std.specs.Prelude.{◌≤◌, length, take};
ghost use Rattle.std.specs.Io.KnownBytes.{Consumes};

use std::io::Read;

// Reads until `bytes` is full, the input ends or a read fails, and gives how many bytes were put at its front: those that the reader gave.
pub fn read_full<R: Read>(reader: &mut R, bytes: &mut [u8]) -> usize
    ensures within { result ≤ length bytes.new }
    ensures given { Consumes (R.remaining reader.old) (R.remaining reader.new) (take result bytes.new) }
{
    let mut filled = 0;
    while filled < bytes.len() {
        match reader.read(&mut bytes[filled..]) {
            Ok(0) | Err(_) => break,
            Ok(count) => filled += count,
        }
    }
    filled
}
