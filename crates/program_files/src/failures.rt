// What cannot be done with an argument or a file, told on standard error.
use std::io;
use std::io::{Cursor, Write};

// Writes a line to standard error: what failed, as the caller names it, and why.
pub fn tell_failure(errors: &impl Print, what: &[u8], error: io::Error) {
    let mut written = Cursor::new([0u8; 128]);
    let _ = write!(written, "{error}");
    let length = written.position().min(128) as usize;
    let bytes = written.into_inner();
    let _ = errors.write_all(what);
    let _ = errors.write_all(b": ");
    let _ = errors.write_all(without_number(&bytes[..length]));
    let _ = errors.write_all(b"\n");
}

// The words of an error of the system, without the number that follows them.
fn without_number(text: &[u8]) -> &[u8] {
    let Ok(worded) = str::from_utf8(text) else {
        return text;
    };
    match worded.split_once(" (os error ") {
        Some((words, _)) => words.as_bytes(),
        None => text,
    }
}
