// The fields of a line, which are parted by one tab, whether they are words, and the family that the first word says. A field is a part of its
// line; a line comes without its byte 10.
ghost use Rattle.std.specs.Prelude.{◌≡◌, length};
ghost use Rattle.listings.specs.Parts.{same, fields, field};
ghost use Rattle.fields.specs.Fields.{headed, family_of};

use crate::parts::{part, part_count};
use expansions::families::Family;

// Whether a field is the given word.
#[tactic(auto, using(crate::proofs::Library::same_pointwise))]
pub fn same(field: &[u8], word: &[u8]) -> bool
    ensures { result ≡ same field.now word.now }
{
    field == word
}

// How many fields a line has.
#[tactic(auto, unfolding(listings::specs::Parts::fields))]
pub fn field_count(line: &[u8]) -> usize
    ensures { result ≡ length (fields line.now) }
{
    part_count(line, b'\t')
}

// The field j of a line, counted from 0; empty where there is none.
#[tactic(auto, unfolding(listings::specs::Parts::fields))]
pub fn field(line: &[u8], j: usize) -> &[u8]
    ensures { result.now ≡ field j line.now }
{
    part(line, b'\t', j)
}

// Whether a line has so many fields, the first of them the given word.
#[tactic(auto, unfolding(crate::specs::Fields::headed))]
pub fn headed(count: usize, word: &[u8], line: &[u8]) -> bool
    ensures { result ≡ headed count word.now line.now }
{
    field_count(line) == count && same(field(line, 0), word)
}

// The family of a line with so many fields, by its first word: `one` is the word of family one and `two` that of family two.
#[tactic(auto, unfolding(crate::specs::Fields::family_of))]
pub fn family_of(count: usize, one: &[u8], two: &[u8], line: &[u8]) -> Option<Family>
    ensures { result ≡ family_of count one.now two.now line.now }
{
    if headed(count, one, line) {
        Some(Family::One)
    } else if headed(count, two, line) {
        Some(Family::Two)
    } else {
        None
    }
}
