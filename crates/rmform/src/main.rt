// The program `rmform` of document 01: it reads the first 8,192 bytes of standard input, or of the file that its argument names, and writes what is printed for
// them, the listing or the line `refused`. The contract of `print_answer` states those bytes for every input (`Print` in crates/text/specs/Print.antt); its
// field `whole` says that no accepted text is cut short. A refusal is explained on standard error, by the bytes that the contract of `explain` states
// (`sentence` in crates/refusal_words/specs/Sentences.antt).
#![tactic(auto)]

use program_files::answering::{Prints, answer_file};
use text::print::{Printed, print_answer};
use writing::written::Written;

// How the program is used.
const USAGE: &str = "usage: rmform [FILE]
Compiles the table text in FILE, or on standard input: writes its listing, or the line `refused`, number, line.
A refusal is explained on standard error. docs/GUIDE.md has the grammar of a table text and each refusal.
";

// What the program prints for a text: the listing of its answer, or the line `refused`.
#[derive(Drop)]
struct Answers;

impl Prints for Answers {
    type Bytes = Written<{ Printed::LONGEST_LISTING }>;

    fn print(&self, text: &[u8]) -> Self::Bytes {
        print_answer(text)
    }
}

fn main(rt: HostRuntime) {
    answer_file(&rt, &rt.stderr(), USAGE.as_bytes(), &Answers);
}
