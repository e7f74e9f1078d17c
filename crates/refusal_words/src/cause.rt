// What a refused line shows of the cause: a blank or a carriage return in it, too many fields, a point in binary, or no line end.
ghost use Rattle.std.specs.Prelude.{◌≡◌};
ghost use Rattle.refusal_words.specs.Causes.{line_at, fields_asked, too_many_fields, in_binary, binary_point, unended, cause_seen, cause_of};

use fields::parts::{part, part_count};
use fields::values::{mask, one_digit};
use fields::words::{field, field_count, same};
use numbers::limits::Limits;

#[derive(Clone, Copy, Debug, PartialEq, Eq)]
pub enum Cause {
    Blank,
    CarriageReturn,
    TooManyFields,
    BinaryPoint,
    NoLineEnd,
}

// The line of this number, from 1, without its byte 10; empty where there is none.
#[tactic(auto, unfolding(crate::specs::Causes::line_at))]
pub fn line_at(line: usize, text: &[u8]) -> &[u8]
    ensures { result.now ≡ line_at line text.now }
{
    part(text, b'\n', line.saturating_sub(1))
}

// How many fields a line has by its first word; none for a word that no line begins with.
#[tactic(auto, unfolding(crate::specs::Causes::fields_asked, listings::specs::Parts::bytes))]
fn fields_asked(word: &[u8]) -> Option<usize>
    ensures { result ≡ fields_asked word.now }
{
    if same(word, b"table") || same(word, b"table2") {
        Some(4)
    } else if same(word, b"on") {
        Some(3)
    } else if same(word, b"end") {
        Some(1)
    } else if same(word, b"form") || same(word, b"form2") {
        Some(8)
    } else if same(word, b"inv") {
        Some(2)
    } else if same(word, b"term") {
        Some(3)
    } else {
        None
    }
}

// Whether a line has more fields than its first word asks.
#[tactic(auto, unfolding(crate::specs::Causes::too_many_fields))]
fn too_many_fields(line: &[u8]) -> bool
    ensures { result ≡ too_many_fields line.now }
{
    match fields_asked(field(line, 0)) {
        Some(asked) => asked < field_count(line),
        None => false,
    }
}

// Whether a field is a point of n inputs in binary: n characters, for n from 2 to 8.
#[tactic(auto, unfolding(crate::specs::Causes::in_binary))]
fn in_binary(n: usize, field: &[u8]) -> bool
    ensures { result ≡ in_binary n field.now }
{
    (2..=Limits::INPUTS).contains(&n) && mask(n, field).is_some()
}

// Whether the point of an `on` line is in binary, for the n of the text's first line.
#[tactic(auto, unfolding(crate::specs::Causes::binary_point, listings::specs::Parts::bytes))]
fn binary_point(text: &[u8], line: &[u8]) -> bool
    ensures { result ≡ binary_point text.now line.now }
{
    if !same(field(line, 0), b"on") {
        return false;
    }
    match one_digit(field(line_at(1, text), 1)) {
        Some(n) => in_binary(n, field(line, 1)),
        None => false,
    }
}

// Whether a line of a text is begun and not ended.
#[tactic(auto, unfolding(crate::specs::Causes::unended))]
fn unended(line: usize, text: &[u8]) -> bool
    ensures { result ≡ unended line text.now }
{
    !line_at(line, text).is_empty() && part_count(text, b'\n') == line
}

// The first cause that a line of a text shows.
#[tactic(auto, unfolding(crate::specs::Causes::cause_seen))]
fn cause_seen(line: usize, text: &[u8]) -> Option<Cause>
    ensures { result ≡ cause_seen line text.now }
{
    let refused = line_at(line, text);
    if 1 < part_count(refused, b' ') {
        Some(Cause::Blank)
    } else if 1 < part_count(refused, b'\r') {
        Some(Cause::CarriageReturn)
    } else if too_many_fields(refused) {
        Some(Cause::TooManyFields)
    } else if binary_point(text, refused) {
        Some(Cause::BinaryPoint)
    } else if unended(line, text) {
        Some(Cause::NoLineEnd)
    } else {
        None
    }
}

// The cause of a refusal of a text, where its line shows one.
#[tactic(auto, unfolding(crate::specs::Causes::cause_of))]
pub fn cause_of(number: usize, line: usize, text: &[u8]) -> Option<Cause>
    ensures { result ≡ cause_of number line text.now }
{
    match number {
        1 | 5 | 11 => cause_seen(line, text),
        _ => None,
    }
}
