// What a program reads, a file that an argument names or standard input, in a lent buffer, and the name of it.
ghost use Rattle.std.specs.Prelude.{◌≤◌, length, IfSome};
ghost use Rattle.listings.specs.Parts.{bytes};
ghost use Rattle.writing.specs.Put.{Put};

use crate::failures::tell_failure;
use crate::reading::read_full;
use std::env::{Env, FillError};
use std::io::{Error, Read};
use std::rt::Files;
use std::{fs, io};
use writing::writer::Writer;

// What was read: how many bytes the file's name has, and how many bytes were read of it.
#[derive(Clone, Copy, Debug, PartialEq, Eq)]
pub struct Source {
    pub named: usize,
    pub length: usize,
}

impl Source {
    // Room for a name: a path has no more.
    pub const NAME_BYTES: usize = 4096;
}

// Puts argument i into `name`, and the first bytes of the file of that name into `bytes`. Where it cannot, it says why on standard error, and gives none.
pub fn read_argument<R: Env + Files>(
    rt: &R,
    errors: &impl Print,
    i: usize,
    name: &mut [u8],
    bytes: &mut [u8],
) -> Option<Source>
    ensures { IfSome result (λ source. (source.named ≤ length name.new) × (source.length ≤ length bytes.new)) }
{
    let named = match rt.arg(i, name) {
        Ok(named) => named,
        Err(error) => {
            tell_failure(errors, b"an argument is too long", argument_error(error));
            return None;
        }
    };
    let mut file = match open_named(rt, &name[..named]) {
        Ok(file) => file,
        Err(error) => {
            tell_failure(errors, &name[..named], error);
            return None;
        }
    };
    let length = read_full(&mut file, bytes);
    if length == 0 && !at_end(&mut file, errors, &name[..named]) {
        return None;
    }
    Some(Source {
        named, // of the file
        length, // of the file
    })
}

// Puts the words `standard input` into the front of `name`, where it has room for them, and gives how many bytes stand there.
fn name_input(name: &mut [u8]) -> usize
    ensures upper_bound { result ≤ length name.new }
    ensures put { 14 ≤ length name.old → Put name.old 0 (bytes "standard input") name.new result }
{
    if name.len() < 14 {
        return 0;
    }
    Writer { at: 0 }.word(name, b"standard input").at
}

// What a program of one file reads: puts the first bytes of the file that its argument names into `bytes`, and the argument into `name`; with no argument
// those of standard input, and these two words.
pub fn read_input<R: Env + Files + Input>(
    rt: &R,
    errors: &impl Print,
    arguments: usize,
    name: &mut [u8],
    bytes: &mut [u8],
) -> Option<Source>
    ensures { IfSome result (λ source. (source.named ≤ length name.new) × (source.length ≤ length bytes.new)) }
{
    if arguments != 0 {
        return read_argument(rt, errors, 1, name, bytes);
    }
    let named = name_input(name);
    let length = read_full(&mut rt.reader(), bytes);
    Some(Source {
        named, // of standard input
        length, // of standard input
    })
}

// Why an argument is not there, in the words that the system has for it.
fn argument_error(error: FillError) -> Error {
    match error {
        FillError::TooLong => Error::other("File name too long"),
        FillError::NotPresent => Error::other("Invalid argument"),
    }
}

// Opens the file of this name. A name that is no text names no file that can be opened.
fn open_named<R: Files>(rt: &R, name: &[u8]) -> io::Result<R::File> {
    match str::from_utf8(name) {
        Ok(path) => fs::open(rt, path),
        Err(_) => Err(Error::other("the name is not UTF-8 text")),
    }
}

// Whether a file is at its end; where it cannot be read, as a folder, it is not, and this says why on standard error.
fn at_end(file: &mut impl Read, errors: &impl Print, name: &[u8]) -> bool {
    let mut next = [0u8; 1];
    let error = match file.read(&mut next) {
        Ok(0) => return true,
        Ok(_) => Error::other("Input/output error"),
        Err(error) => error,
    };
    tell_failure(errors, name, error);
    false
}
