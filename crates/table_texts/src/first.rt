// What the first line of a table text says, by its fields. Whether the design is within its limits is judged later, since a line that breaks
// the grammar is refused first.
ghost use Rattle.std.specs.Prelude.{◌≡◌};
ghost use Rattle.table_texts.specs.First.{dash_kind, kind_of, table_line, first_line};

use crate::sizes::Design;
use expansions::kinds::{Class, Kind};
use fields::heading::{Heading, heading_of};
use fields::values::{mixed_of, one_digit};
use fields::words::{family_of, field, same};

// What `-` as the field k means for n inputs: `f2`, or `f1` where n is 1. No other function says what it means.
#[tactic(auto, unfolding(crate::specs::First::dash_kind))]
fn dash_kind(n: usize) -> Kind
    ensures { result ≡ dash_kind n }
{
    Kind::Mixed(Class::Free, if n == 1 { 1 } else { 2 })
}

// The field k of a table of n inputs: a digit, `f` and a digit for the free class, `-`, or `K` for the Kronecker expansions.
#[tactic(auto, unfolding(crate::specs::First::kind_of, listings::specs::Parts::bytes))]
fn kind_of(n: usize, field: &[u8]) -> Option<Kind>
    ensures { result ≡ kind_of n field.now }
{
    if same(field, b"-") {
        return Some(dash_kind(n));
    }
    if same(field, b"K") {
        return Some(Kind::Kronecker);
    }
    let mixed = mixed_of(field)?;
    Some(Kind::Mixed(mixed.class, mixed.k))
}

// The design of a heading with the kind of k, which `field` says, where each is read.
fn table_line(heading: Option<Heading>, field: &[u8]) -> Option<Design>
    ensures { result ≡ table_line heading field.now }
{
    let Heading { family, n, m } = heading?;
    let kind = kind_of(n, field)?;
    Some(Design { n, m, kind, family })
}

// The first line: `table` for family one or `table2` for family two, n, m, k.
#[tactic(auto, unfolding(crate::specs::First::first_line, crate::specs::First::table_word, listings::specs::Parts::bytes))]
pub fn first_line(line: &[u8]) -> Option<Design>
    ensures { result ≡ first_line line.now }
{
    let heading = heading_of(
        family_of(4, b"table", b"table2", line),
        one_digit(field(line, 1)),
        one_digit(field(line, 2)),
    );
    table_line(heading, field(line, 3))
}
