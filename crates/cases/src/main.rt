// Runs the text call on many texts, and writes the answer of each as `rmform` does. `stdin` holds the cases and `stdout` what a truth-table
// evaluator in another language expects. Each case is a line with the length of its text, in base ten, and then the text.
// The contract of `print_answer` states what is printed for every text (`Print` in crates/text/specs/Print.antt). Every text that can be
// accepted is shorter than the 8,192 bytes that are judged: it has at most 4,004 (the law `accepted-text-length` of the crate `table_texts`).
#![tactic(auto)]

use program_files::reading::read_full;
use std::io::Read;
use text::print::{Printed, print_answer};

// The next byte of the input as a digit; none where it is no digit, or where the input has ended.
fn next_digit(input: &mut impl Read) -> Option<u8> {
    let mut byte = [0u8; 1];
    read_full(input, &mut byte);
    match byte[0] {
        digit @ b'0'..=b'9' => Some(digit - b'0'),
        _ => None,
    }
}

// Reads a length line, a number of one to four digits and the byte after it. A line with no digit, or with more, ends the input.
fn read_length(input: &mut impl Read) -> Option<usize> {
    let mut length = usize::from(next_digit(input)?);
    for _ in 1..5 {
        let Some(digit) = next_digit(input) else {
            break;
        };
        if length > 999 {
            return None;
        }
        length = length * 10 + usize::from(digit);
    }
    Some(length)
}

// Fills `text` from the input, and writes the answer of what was read.
fn answer_text(input: &mut impl Read, answers: &impl Print, text: &mut [u8]) {
    let read = read_full(input, text);
    let printed = print_answer(&text[..read]);
    let _ = answers.write_all(printed.as_slice());
}

// Answers the next case, and says whether there was one. A text is at most 8,192 bytes.
fn answer_next(input: &mut impl Read, answers: &impl Print) -> bool {
    let mut buffer = [0u8; Printed::INPUT_BYTES];
    match read_length(input) {
        Some(length) if length <= Printed::INPUT_BYTES => {
            answer_text(input, answers, &mut buffer[..length]);
            true
        }
        _ => false,
    }
}

// A loop has to end, and nothing says that the input does, so there are more turns than cases.
fn main(rt: HostRuntime) {
    let mut input = rt.stdin();
    for _ in 0..10000 {
        if !answer_next(&mut input, &rt) {
            break;
        }
    }
}
