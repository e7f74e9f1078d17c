// What the programs print for a text: the listing of its answer, or the line `refused`, number, line.
// The main property, for every input: the bytes handed out begin with `printed input` of specs/Print.antt, and `length` is how many they are.
ghost use Rattle.std.specs.Prelude.{◌≡◌, ◌≤◌, length, take};
ghost use Rattle.writing.specs.Put.{Put};
ghost use Rattle.text.specs.Print.{Print};
ghost use Rattle.text.specs.Judged.{judged, refused_line};

use crate::compile::compile;
use numbers::refusals::Refused;
use writing::line::write_refused;
use writing::written::Written;

// What is printed for a text. The bytes past it are zero.
#[derive(Clone, Copy, Debug, PartialEq, Eq)]
pub struct Printed;

impl Printed {
    // How many bytes of standard input are judged as the whole text. Every text that can be accepted is shorter: `Print.whole`.
    pub const INPUT_BYTES: usize = 8192;

    // The length of the longest listing, which is one of a Kronecker expansion. The line `refused` is shorter.
    pub const LONGEST_LISTING: usize = 5919;
}

// How many bytes of the input are judged.
#[tactic(auto, using(std::proofs::lemmas::List::take_min))]
pub fn judged_length(input: &[u8]) -> usize
    ensures { (result ≤ length input.now) × (take result input.now ≡ judged input.now) }
{
    Printed::INPUT_BYTES.min(input.len())
}

// Writes the line `refused`, number, line into the front of `out`, and gives the line's length.
#[tactic(auto, using(crate::proofs::print::Refusals::line_room), unfolding(crate::specs::Judged::refused_line, listings::specs::Parts::bytes))]
fn write_refusal(refused: Refused, out: &mut [u8]) -> usize
    requires { 18 ≤ length out.old }
    ensures { Put out.old 0 (refused_line refused.refusal refused.line) out.new result }
{
    write_refused(refused.refusal.number(), refused.line, out)
}

// What is printed for the input, of which the first 8,192 bytes are judged as the whole text.
pub fn print_answer(input: &[u8]) -> Written<{ Printed::LONGEST_LISTING }>
    ensures { Print input.now result.bytes result.length }
{
    let judged = judged_length(input);
    let mut bytes = [0u8; Printed::LONGEST_LISTING];
    let length = match compile(&input[..judged], &mut bytes) {
        Ok(length) => length,
        Err(refused) => write_refusal(refused, &mut bytes),
    };
    Written { bytes, length }
}
