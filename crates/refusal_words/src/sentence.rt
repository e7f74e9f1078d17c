// The sentence of a refusal, written into bytes that are handed out.
ghost use Rattle.std.specs.Prelude.{◌≡◌, ◌+◌, ◌≤◌, length, take};
ghost use Rattle.writing.specs.Put.{Put};
ghost use Rattle.refusal_words.specs.Sentences.{refusal_words, cause_words, line_words, place, sentence, Said};

use crate::cause::{Cause, cause_of};
use writing::writer::Writer;
use writing::written::Written;

// What is said of a refusal. The bytes past it are zero.
#[derive(Clone, Copy, Debug, PartialEq, Eq)]
pub struct Sentence;

impl Sentence {
    // How many bytes of a file's name are shown: a path has no more.
    pub const NAME_BYTES: usize = 4096;

    // Room for every sentence: a name, a line, the words of a number and of a cause.
    pub const ROOM: usize = 4352;
}

// The bytes of a name that are shown.
#[tactic(auto, using(std::proofs::lemmas::List::take_min))]
fn shown_name(name: &[u8]) -> &[u8]
    ensures { result.now ≡ take 4096 name.now }
{
    &name[..Sentence::NAME_BYTES.min(name.len())]
}

// Writes the words of a line, where there is one.
fn write_line_words(start: Writer, line: usize, out: &mut [u8]) -> Writer
    requires { start.at + 11 ≤ length out.old }
    ensures { (result.at ≤ start.at + 11) × Put out.old start.at (line_words line) out.new result.at }
{
    if line == 0 {
        return start;
    }
    start.word(out, b", line ").number(out, line)
}

// Writes where the refusal is, the file and the line, into the front of `out`.
fn write_place(name: &[u8], line: usize, out: &mut [u8]) -> Writer
    requires { 4109 ≤ length out.old }
    ensures { (result.at ≤ 4109) × Put out.old 0 (place name.now line) out.new result.at }
{
    let named = Writer { at: 0 }.word(out, shown_name(name));
    write_line_words(named, line, out).word(out, b": ")
}

// Writes the words of a number.
fn write_words(start: Writer, number: usize, out: &mut [u8]) -> Writer
    requires { start.at + 108 ≤ length out.old }
    ensures { (result.at ≤ start.at + 108) × Put out.old start.at (refusal_words number) out.new result.at }
{
    match number {
        0 => start.word(out, b"carried out"),
        1 => start.word(out, b"the line breaks its grammar"),
        2 => start.word(out, b"n, the number of inputs, is not 1 to 8"),
        3 => start.word(out, b"m, the number of outputs, is not 1 to 8"),
        4 => start.word(
            out,
            b"k, the number of mixed inputs, is above its limit or above n",
        ),
        5 => start.word(
            out,
            b"the point is 2^n or more, or not above the one before",
        ),
        6 => start.word(
            out,
            b"the text stops before its end line, or goes on after it",
        ),
        7 => start.word(out, b"the polarity w is 2^n or more"),
        8 => start.word(out, b"a buffer has another length than the call states"),
        9 => start.word(out, b"a byte has a bit at m or above set"),
        10 => start.word(out, b"the output buffer is shorter than the listing"),
        11 => start.word(
            out,
            b"the line breaks the grammar of a listing, its term is not above the one before, or the listing ends wrongly",
        ),
        12 => start.word(
            out,
            b"the listing's family, n, m or k is not the table's, or its counts are not those of its lines",
        ),
        _ => start.word(out, b"no refusal has this number"),
    }
}

// Writes the words of a cause, where there is one.
#[tactic(auto, unfolding(crate::specs::Sentences::cause_words, listings::specs::Parts::bytes))]
fn write_cause(start: Writer, cause: Option<Cause>, out: &mut [u8]) -> Writer
    requires { start.at + 42 ≤ length out.old }
    ensures { (result.at ≤ start.at + 42) × Put out.old start.at (cause_words cause) out.new result.at }
{
    let Some(cause) = cause else {
        return start;
    };
    match cause {
        Cause::Blank => start.word(out, b"; it has a blank where a tab belongs"),
        Cause::CarriageReturn => start.word(out, b"; it has a carriage return"),
        Cause::TooManyFields => start.word(out, b"; it has too many fields"),
        Cause::BinaryPoint => start.word(out, b"; its point is in binary, not in base ten"),
        Cause::NoLineEnd => start.word(out, b"; no line end follows it"),
    }
}

// Writes the sentence of a refusal into the front of `out`, and gives its length.
fn write_sentence(name: &[u8], number: usize, line: usize, text: &[u8], out: &mut [u8]) -> usize
    requires { 4352 ≤ length out.old }
    ensures { (result ≤ 4352) × Put out.old 0 (sentence name.now number line text.now) out.new result }
{
    let placed = write_place(name, line, out);
    let worded = write_words(placed, number, out);
    write_cause(worded, cause_of(number, line, text), out)
        .byte(out, b'\n')
        .at
}

// The sentence of a refusal: the name of the file, the number and the line of the refusal, and the text that was refused. It takes a number and no `Refusal`,
// since `sentence` promises one for every number.
pub fn explain(name: &[u8], number: usize, line: usize, text: &[u8]) -> Written<{ Sentence::ROOM }>
    ensures { Said (sentence name.now number line text.now) result.bytes result.length }
{
    let mut bytes = [0u8; Sentence::ROOM];
    let length = write_sentence(name, number, line, text, &mut bytes);
    Written { bytes, length }
}
