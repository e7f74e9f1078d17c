// What every line `term` has alike, how a line with outputs ends, and the last line.
ghost use Rattle.std.specs.Prelude.{List, ℕ, [], ◌∷◌, ◌++◌, ◌+◌, ◌^◌, ◌≤◌, length};
ghost use Rattle.numbers.specs.Bytes.{at};
ghost use Rattle.numbers.specs.Nonzero.{if_nonzero};
ghost use Rattle.listings.specs.Parts.{bytes};
ghost use Rattle.listings.specs.Listing.{line, output_bytes, cube_line, cube_lines};
ghost use Rattle.writing.specs.Put.{Put};

use numbers::limits::Limits;
use writing::writer::Writer;

// The cubes of an expansion's terms, and how they are written.
pub trait Cubes {
    // The characters of the cube of a term.
    ghost cube_of: { Self → ℕ → List ℕ };

    // Writes the cube of the term t.
    fn write_cube(&self, start: Writer, out: &mut [u8], t: usize) -> Writer
        requires { start.at + length (cube_of self.now t) ≤ length out.old }
        ensures { Put out.old start.at (cube_of self.now t) out.new result.at };
}

// The bytes of a line `term` besides its cube and its outputs: the word, two tabs and the line end.
pub const TERM: usize = 7;

// What stands before the cube: the word, and a tab.
fn begin_term(start: Writer, out: &mut [u8]) -> Writer
    requires { start.at + 5 ≤ length out.old }
    ensures { Put out.old start.at (bytes "term" ++ 9 ∷ []) out.new result.at }
{
    start.word(out, b"term").byte(out, b'\t')
}

// What stands after a cube, and after the word `inv`: a tab, the outputs of c, and the line end.
pub fn end_term(start: Writer, out: &mut [u8], m: usize, c: u8) -> Writer
    requires { (m ≤ 8) × (start.at + (m + 2) ≤ length out.old) }
    ensures { Put out.old start.at (9 ∷ output_bytes m c ++ 10 ∷ []) out.new result.at }
{
    let outputs = start.byte(out, b'\t');
    outputs.outputs(out, m, c).byte(out, b'\n')
}

// The line of the term t, where its coefficient c is not 0, and nothing where it is.
fn write_term<C: Cubes>(
    cubes: &C,
    start: Writer,
    out: &mut [u8],
    m: usize,
    t: usize,
    c: u8,
) -> Writer
    requires { (m ≤ 8) × (start.at + length (if_nonzero c (cube_line m (C.cube_of cubes.now t) c)) ≤ length out.old) }
    ensures { Put out.old start.at (if_nonzero c (cube_line m (C.cube_of cubes.now t) c)) out.new result.at }
{
    if c == 0 {
        return start;
    }
    let cube = begin_term(start, out);
    end_term(cubes.write_cube(cube, out, t), out, m, c)
}

// The lines of the products among the terms of n inputs, ascending by term.
pub fn write_terms<C: Cubes>(
    cubes: &C,
    start: Writer,
    out: &mut [u8],
    n: usize,
    m: usize,
    coefficients: &[u8; Limits::PLACES],
) -> Writer
    requires sizes { (n ≤ 8) × (m ≤ 8) }
    requires room { start.at + length (cube_lines m (C.cube_of cubes.now) (at coefficients.now) (2 ^ n)) ≤ length out.old }
    ensures { Put out.old start.at (cube_lines m (C.cube_of cubes.now) (at coefficients.now) (2 ^ n)) out.new result.at }
{
    let mut place = start;
    for t in 0..1 << n {
        place = write_term(cubes, place, out, m, t, coefficients[t]);
    }
    place
}

// The last line.
pub fn write_end(start: Writer, out: &mut [u8]) -> Writer
    requires { start.at + 4 ≤ length out.old }
    ensures { Put out.old start.at (line (bytes "end") []) out.new result.at }
{
    start.word(out, b"end").byte(out, b'\n')
}
