// What a program of one file does, whatever it prints for it.
ghost use Rattle.std.specs.Prelude.{◌≤◌, IfSome};

use crate::arguments::argument_count;
use crate::sources::{Source, read_input};
use crate::telling::tell_answer;
use std::convert::AsSlice;
use std::env::Env;
use std::rt::Files;
use text::print::Printed;

// What a program of one file prints for the bytes that it read.
pub trait Prints {
    type Bytes: AsSlice<u8> + Drop;

    fn print(&self, text: &[u8]) -> Self::Bytes;
}

// Tells the usage where the arguments ask for it. Else it reads the first bytes of the file that the argument names, or of standard input, writes what the
// program prints for them, and tells a refusal. Gives what was read; none where nothing was.
pub fn answer_file<P: Prints, R: Env + Files + Input + Print>(
    rt: &R,
    errors: &impl Print,
    usage: &[u8],
    program: &P,
) -> Option<Source>
    ensures within { IfSome result (λ source. (source.named ≤ 4096) × (source.length ≤ 8192)) }
{
    let arguments = argument_count(rt, 1);
    if 1 < arguments {
        let _ = errors.write_all(usage);
        return None;
    }
    let mut name = [0u8; Source::NAME_BYTES];
    let mut input = [0u8; Printed::INPUT_BYTES];
    let source = read_input(rt, errors, arguments, &mut name, &mut input)?;
    let text = &input[..source.length];
    let printed = program.print(text);
    tell_answer(rt, errors, printed.as_slice(), &name[..source.named], text);
    Some(source)
}
