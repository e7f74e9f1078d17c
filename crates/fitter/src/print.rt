// What `rmcheck` prints for a table text and a listing: one line with the check's answer.
// The main property, for every pair of inputs: the bytes handed out begin with the line `printed` of specs/Print.antt, and `length` is how many
// they are.
ghost use Rattle.std.specs.Prelude.{[], ◌+◌, ◌≤◌, length};
ghost use Rattle.listings.specs.Listing.{line};
ghost use Rattle.writing.specs.Put.{Put};
ghost use Rattle.fitter.specs.Print.{Print};
ghost use Rattle.fitter.specs.AnswerLine.{answer_line};

use crate::check::{Verdict, check};
use numbers::refusals::Refused;
use text::print::judged_length;
use writing::line::{write_line, write_refused};
use writing::writer::Writer;
use writing::written::Written;

// What is printed for a table text and a listing. The bytes past it are zero.
#[derive(Clone, Copy, Debug, PartialEq, Eq)]
pub struct PrintedCheck;

impl PrintedCheck {
    // The length of the longest line: the word `refused` and two numbers of four digits.
    pub const LONGEST_LINE: usize = 18;
}

// Writes the line of a word alone into the front of `out`, and gives the line's length.
fn write_word(word: &[u8], out: &mut [u8]) -> usize
    requires { length word.now + 1 ≤ length out.old }
    ensures { Put out.old 0 (line word.now []) out.new result }
{
    Writer { at: 0 }.word(out, word).byte(out, b'\n').at
}

// Writes the line of an answer into the front of `out`, and gives the line's length.
#[tactic(auto, unfolding(crate::specs::AnswerLine::answer_line, text::specs::Judged::refused_line, listings::specs::Parts::bytes))]
fn write_answer(answer: Result<Verdict, Refused>, out: &mut [u8]) -> usize
    requires { 18 ≤ length out.old }
    ensures { Put out.old 0 (answer_line answer) out.new result }
{
    match answer {
        Ok(Verdict::Same) => write_word(b"same", out),
        Ok(Verdict::Differs { point }) => {
            write_line(Writer { at: 0 }, out, b"differs", &[point]).at
        }
        Ok(Verdict::NotOfClass) => write_word(b"not of the class", out),
        Err(refused) => write_refused(refused.refusal.number(), refused.line, out),
    }
}

// What is printed for a table text and a listing, each judged by its first 8,192 bytes.
pub fn print_check(text: &[u8], listing: &[u8]) -> Written<{ PrintedCheck::LONGEST_LINE }>
    ensures { Print text.now listing.now result.bytes result.length }
{
    let judged = judged_length(text);
    let other = judged_length(listing);
    let mut bytes = [0u8; PrintedCheck::LONGEST_LINE];
    let length = write_answer(check(&text[..judged], &listing[..other]), &mut bytes);
    Written { bytes, length }
}
