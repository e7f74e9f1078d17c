// A place in a lent buffer. Its methods write a byte, a word, a number, a cube or outputs there, and return the place after them.
ghost use Rattle.std.specs.Prelude.{◌≡◌, ℕ, [], ◌∷◌, ◌+◌, ◌/◌, ◌%◌, ◌^◌, ◌≤◌, ◌<◌, length};
ghost use Rattle.numbers.specs.Bits.{bit};
ghost use Rattle.listings.specs.Listing.{descending, digit_count, decimal, cube_byte, cube, output_bytes};
ghost use Rattle.writing.specs.Put.{Put};

#[derive(Clone, Copy, Debug, PartialEq, Eq)]
pub struct Writer {
    pub at: usize,
}

impl Writer {
    // The place before the first byte of a buffer.
    pub const START: Writer = Writer { at: 0 };

    // One byte.
    pub fn byte(self, out: &mut [u8], b: u8) -> Writer
        requires { self.at < length out.old }
        ensures { Put out.old self.at (b ∷ []) out.new result.at }
    {
        out[self.at] = b;
        Writer { at: self.at + 1 }
    }

    // The bytes of a word.
    pub fn word(self, out: &mut [u8], word: &[u8]) -> Writer
        requires { self.at + length word.now ≤ length out.old }
        ensures { Put out.old self.at word.now out.new result.at }
    {
        let stop = self.at + word.len();
        out[self.at..stop].copy_from_slice(word);
        Writer { at: stop }
    }

    // The bytes that `character` gives for count - 1, .., 1, 0.
    pub fn descending<F: Fn(usize) -> u8>(
        self,
        out: &mut [u8],
        count: usize,
        character: F,
    ) -> Writer
        requires room { self.at + count ≤ length out.old }
        requires callable { (i : ℕ) → i < count → F.pre character i }
        ensures { (g : ℕ → ℕ) → ((i b : ℕ) → i < count → F.post character i b → b ≡ g i) → Put out.old self.at (descending count g) out.new result.at }
    {
        for k in 0..count {
            out[self.at + k] = character(count - 1 - k);
        }
        Writer {
            at: self.at + count,
        }
    }

    // A number of one to four digits.
    #[tactic(auto, unfolding(listings::specs::Listing::decimal))]
    pub fn number(self, out: &mut [u8], x: usize) -> Writer
        requires { self.at + digit_count x ≤ length out.old }
        ensures { Put out.old self.at (decimal x) out.new result.at }
    {
        self.descending(out, digit_count(x), |i| digit_byte(x, i))
    }

    // The n characters of a cube, the highest input first.
    #[tactic(auto, unfolding(listings::specs::Listing::cube))]
    pub fn cube(self, out: &mut [u8], n: usize, t: usize, w: usize) -> Writer
        requires { (n ≤ 8) × (self.at + n ≤ length out.old) }
        ensures { Put out.old self.at (cube n t w) out.new result.at }
    {
        self.descending(out, n, |i| cube_byte(i, t, w))
    }

    // The m characters of outputs, output 0 first.
    pub fn outputs(self, out: &mut [u8], m: usize, c: u8) -> Writer
        requires { (m ≤ 8) × (self.at + m ≤ length out.old) }
        ensures { Put out.old self.at (output_bytes m c) out.new result.at }
    {
        for k in 0..m {
            out[self.at + k] = b'0' + ((c >> k) & 1);
        }
        Writer { at: self.at + m }
    }
}

// How many digits a number has, 1 to 4.
#[tactic(auto, unfolding(listings::specs::Listing::digit_count))]
pub fn digit_count(x: usize) -> usize
    ensures { result ≡ digit_count x }
{
    match x {
        0..=9 => 1,
        10..=99 => 2,
        100..=999 => 3,
        _ => 4,
    }
}

// The powers of ten that the digits of a number stand for, from the lowest.
const UNITS: [usize; 4] = [1, 10, 100, 1000];

// The digit of x that stands for the unit i, as a character.
fn digit_byte(x: usize, i: usize) -> u8
    requires { i < 4 }
    ensures { result ≡ 48 + x / 10 ^ i % 10 }
{
    b'0' + (x / UNITS[i] % 10) as u8
}

// The character of the input i in the cube of the term t under the polarity w.
#[tactic(auto, unfolding(listings::specs::Listing::cube_byte))]
fn cube_byte(i: usize, t: usize, w: usize) -> u8
    requires { i < 64 }
    ensures { result ≡ cube_byte (bit i t) (bit i w) }
{
    match ((t >> i) & 1, (w >> i) & 1) {
        (0, _) => b'-',
        (_, 0) => b'1',
        _ => b'0',
    }
}
