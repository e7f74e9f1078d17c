// The program `rmquote`, for the quotation of document 02's W-209: it reads the first 8,192 bytes of standard input, or of the file that its argument names, and writes one line,
// the quotation or the line `refused`. The contract of `print_quotation` states that line for every input (`Print` in crates/quote_text/specs/Print.antt). A
// refusal is explained on standard error, by the bytes that the contract of `explain` states (`sentence` in crates/refusal_words/specs/Sentences.antt).
#![tactic(auto)]

use program_files::answering::{Prints, answer_file};
use quote_text::print::{PrintedQuotation, print_quotation};
use writing::written::Written;

// How the program is used.
const USAGE: &str = "usage: rmquote [FILE]
Quotes the table text in FILE, or on standard input: writes `quote`, products, literals and the length of its listing in bytes,
or the line `refused`, number, line, and explains a refusal on standard error. docs/GUIDE.md has each number and each refusal.
";

// What the program prints for a text: its quotation, or the line `refused`.
#[derive(Drop)]
struct Quotations;

impl Prints for Quotations {
    type Bytes = Written<{ PrintedQuotation::LONGEST_LINE }>;

    fn print(&self, text: &[u8]) -> Self::Bytes {
        print_quotation(text)
    }
}

fn main(rt: HostRuntime) {
    answer_file(&rt, &rt.stderr(), USAGE.as_bytes(), &Quotations);
}
