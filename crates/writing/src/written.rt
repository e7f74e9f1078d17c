// What was written into a buffer of a fixed size, and is handed out by value: a printed listing, a line or a sentence.
ghost use Rattle.std.specs.Prelude.{◌≡◌, ◌≤◌, take};

use std::convert::AsSlice;

// The first `length` of the bytes were written. Those past them are what the buffer held.
#[derive(Clone, Copy, Debug, PartialEq, Eq)]
pub struct Written<const ROOM: usize> {
    pub bytes: [u8; ROOM],
    pub length: usize,
    ghost within: { length ≤ ROOM },
}

impl<const ROOM: usize> Written<ROOM> {
    // The bytes that were written.
    pub fn as_slice(&self) -> &[u8]
        ensures { result.now ≡ take self.now.length self.now.bytes }
    {
        &self.bytes[..self.length]
    }
}

impl<const ROOM: usize> AsSlice<u8> for Written<ROOM> {
    ghost items = { λ written. take written.length written.bytes };

    fn as_slice(&self) -> &[u8] {
        self.as_slice()
    }
}
