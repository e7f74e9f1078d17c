// The program `rmcheck TABLE LISTING`: it reads the first 8,192 bytes of each of two files and writes one line, the fitter's answer. The contract
// of `print_check` states that line for every pair of inputs (`Print` in crates/fitter/specs/Print.antt). A refusal is explained on standard error, by the
// bytes that the contract of `explain` states (`sentence` in crates/refusal_words/specs/Sentences.antt). So are a missing argument and a file that cannot be
// read told there.
#![tactic(auto)]

use fitter::print::print_check;
use program_files::arguments::argument_count;
use program_files::sources::{Source, read_argument};
use program_files::telling::tell_refusal;
use refusal_words::refusal::refusal_in;
use text::print::Printed;

// Says how the program is used.
fn usage(rt: &impl Eprint) {
    let _ = eprintln!(rt; "usage: rmcheck TABLE LISTING");
    let _ = eprintln!(rt;
        "Checks the file LISTING beside its table text, the file TABLE: writes `same`, `differs` and a point, `not of the class`,"
    );
    let _ = eprintln!(rt;
        "or `refused`, number, line, and explains a refusal on standard error. docs/GUIDE.md has each answer and each refusal."
    );
}

// Says which argument is missing, where `arguments` were given, and how the program is used.
fn missing(rt: &impl Eprint, arguments: usize) {
    if arguments == 0 {
        let _ = eprintln!(rt; "rmcheck: the argument TABLE is missing");
    } else {
        let _ = eprintln!(rt; "rmcheck: the argument LISTING is missing");
    }
    usage(rt);
}

// Writes the answer for a table text and a listing, and explains it where it is a refusal, of the one or of the other.
fn answer(
    answers: &impl Print,
    errors: &impl Print,
    table_name: &[u8],
    text: &[u8],
    listing_name: &[u8],
    listing: &[u8],
) {
    let printed = print_check(text, listing);
    let line = printed.as_slice();
    let _ = answers.write_all(line);
    if let Some(refusal) = refusal_in(line) {
        let (name, refused) = if refusal.listing {
            (listing_name, listing)
        } else {
            (table_name, text)
        };
        tell_refusal(errors, refusal, name, refused);
    }
}

fn main(rt: HostRuntime) {
    let errors = rt.stderr();
    let arguments = argument_count(&rt, 2);
    if 2 < arguments {
        usage(&rt);
        return;
    }
    if arguments < 2 {
        missing(&rt, arguments);
        return;
    }
    let mut table_name = [0u8; Source::NAME_BYTES];
    let mut listing_name = [0u8; Source::NAME_BYTES];
    let mut text = [0u8; Printed::INPUT_BYTES];
    let mut listing = [0u8; Printed::INPUT_BYTES];
    let Some(table_source) = read_argument(&rt, &errors, 1, &mut table_name, &mut text) else {
        return;
    };
    let Some(listing_source) = read_argument(&rt, &errors, 2, &mut listing_name, &mut listing)
    else {
        return;
    };
    answer(
        &rt,
        &errors,
        &table_name[..table_source.named],
        &text[..table_source.length],
        &listing_name[..listing_source.named],
        &listing[..listing_source.length],
    );
}
