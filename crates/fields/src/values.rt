// What the fields of a line say: digits, the field k, numbers, masks, outputs and cubes. A function here gives what the whole field says, and nothing
// where it breaks the grammar.
ghost use Rattle.std.specs.Prelude.{◌≡◌, ◌≤◌, ◌<◌};
ghost use Rattle.fields.specs.Fields.{digit, one_digit, mixed_said, well_formed, number, mask, outputs};
ghost use Rattle.fields.specs.Cubes.{character_said, cube_said};

use expansions::kinds::Class;

// What a field k says: a class and how many inputs are mixed.
#[derive(Clone, Copy, Debug, PartialEq, Eq)]
pub struct Mixed {
    pub class: Class,
    pub k: usize,
}

// What a cube shows: the term has the bit of each input present, and `complemented` the bit of each input that stands complemented.
#[derive(Clone, Copy, Debug, PartialEq, Eq)]
pub struct Cube {
    pub term: usize,
    pub complemented: usize,
}

// The value of a digit below a base: ten for numbers, two for outputs.
#[tactic(auto, unfolding(crate::specs::Fields::digit))]
fn digit(base: usize, b: u8) -> Option<usize>
    ensures { result ≡ digit base b }
{
    let value = usize::from(b.checked_sub(b'0')?);
    (value < base).then_some(value)
}

// A field of one digit.
#[tactic(auto, unfolding(crate::specs::Fields::one_digit))]
pub fn one_digit(field: &[u8]) -> Option<usize>
    ensures { result ≡ one_digit field.now }
{
    let [b] = field else {
        return None;
    };
    digit(10, *b)
}

// The field k of a class: a digit for document 01's class, and `f` and a digit for the free class.
#[tactic(auto, unfolding(crate::specs::Fields::mixed_said, crate::specs::Fields::one_digit))]
pub fn mixed_of(field: &[u8]) -> Option<Mixed>
    ensures { result ≡ mixed_said field.now }
{
    let (class, digit) = match field {
        [b'f', digit @ ..] => (Class::Free, digit),
        _ => (Class::Block, field),
    };
    Some(Mixed {
        class,
        k: one_digit(digit)?,
    })
}

// Whether a field has one byte to `most` bytes, and no leading zero but `0`.
#[tactic(auto, unfolding(crate::specs::Fields::well_formed))]
fn well_formed(most: usize, field: &[u8]) -> bool
    ensures { result ≡ well_formed most field.now }
{
    (1..=most).contains(&field.len()) && (field.len() == 1 || field[0] != b'0')
}

// A number of one digit to `most` digits, with no leading zero but `0`: three for a point, and four for the numbers of a listing.
#[tactic(auto, unfolding(crate::specs::Fields::number))]
pub fn read_number(most: usize, field: &[u8]) -> Option<usize>
    requires { most ≤ 4 }
    ensures { result ≡ number most field.now }
{
    if !well_formed(most, field) {
        return None;
    }
    let mut value = 0;
    for &b in field {
        value = value * 10 + digit(10, b)?;
    }
    Some(value)
}

// A mask: m characters, which may all be `0`. The leftmost is the lowest bit, so they are taken from the right.
#[tactic(auto, unfolding(crate::specs::Fields::mask))]
pub fn mask(m: usize, field: &[u8]) -> Option<usize>
    requires { m ≤ 8 }
    ensures { result ≡ mask m field.now }
{
    if field.len() != m {
        return None;
    }
    let mut bits = 0;
    for &b in field.iter().rev() {
        bits = bits * 2 + digit(2, b)?;
    }
    Some(bits)
}

// Outputs: m characters, not all `0`.
#[tactic(auto, unfolding(crate::specs::Fields::outputs))]
pub fn outputs(m: usize, field: &[u8]) -> Option<usize>
    requires { m ≤ 8 }
    ensures { result ≡ outputs m field.now }
{
    mask(m, field).filter(|&value| value != 0)
}

// What one character of a cube shows of its input: `1` plain, `0` complemented, `-` absent.
#[tactic(auto, unfolding(crate::specs::Cubes::character_said, crate::specs::Cubes::is_character, crate::specs::Cubes::present_in, crate::specs::Cubes::complemented_in))]
fn character(b: u8) -> Option<Cube>
    ensures { result ≡ character_said b }
{
    let (term, complemented) = match b {
        b'1' => (1, 0),
        b'0' => (1, 1),
        b'-' => (0, 0),
        _ => return None,
    };
    Some(Cube { term, complemented })
}

// A cube: n characters. The leftmost is xn, the highest bit, so each character doubles what the characters before it show.
#[tactic(auto, unfolding(crate::specs::Cubes::cube_said))]
pub fn read_cube(n: usize, field: &[u8]) -> Option<Cube>
    requires { n ≤ 8 }
    ensures { result ≡ cube_said n field.now }
{
    if field.len() != n {
        return None;
    }
    let mut cube = Cube {
        term: 0,
        complemented: 0,
    };
    for &b in field {
        let shown = character(b)?;
        cube.term = cube.term * 2 + shown.term;
        cube.complemented = cube.complemented * 2 + shown.complemented;
    }
    Some(cube)
}
