// What a line says that is a row or the last. A table text has a line for each point that is not zero, and a listing one for each product: both are a
// row, which puts a value at a place. A line comes without its byte 10.
ghost use Rattle.std.specs.Prelude.{◌≡◌, ◌≤◌};
ghost use Rattle.lines.specs.Rows.{point_said, row_said, row_line};
ghost use Rattle.lines.specs.Inner.Steps.{SmallRow};

use fields::values::{Cube, outputs, read_cube, read_number};
use fields::words::{field, headed, same};

// Which text the lines are of.
#[derive(Clone, Copy, Debug, PartialEq, Eq)]
pub enum Kind {
    Table,
    Listing,
}

// What the lines are judged by: their kind, the inputs n and the outputs m.
#[derive(Clone, Copy, Debug, PartialEq, Eq)]
pub struct Grammar {
    pub kind: Kind,
    pub n: usize,
    pub m: usize,
}

// What such a line says. A table's row is at its point, with the outputs as value; a listing's is at its term, with 256 times the
// complemented inputs and the outputs as value.
#[derive(Clone, Copy, Debug, PartialEq, Eq)]
pub enum RowLine {
    Row { at: usize, value: usize },
    End,
}

// The place of a table's row: its point, with no input complemented.
fn point_of(field: &[u8]) -> Option<Cube>
    ensures { result ≡ point_said field.now }
{
    Some(Cube {
        term: read_number(3, field)?,
        complemented: 0,
    })
}

// A row, where it is headed by its word, and its place and its outputs are read.
fn row(headed: bool, place: Option<Cube>, outputs: Option<usize>) -> Option<RowLine>
    requires { SmallRow place outputs }
    ensures { result ≡ row_said headed place outputs }
{
    if !headed {
        return None;
    }
    let cube = place?;
    let value = outputs?; // whatever the point: refusal 1 comes before 5
    Some(RowLine::Row {
        at: cube.term,
        value: cube.complemented * 256 + value,
    })
}

// A row, which is `on`, point, outputs in a table text and `term`, cube, outputs in a listing; or `end`; and nothing where the line breaks its grammar.
#[tactic(auto, unfolding(crate::specs::Rows::row_line, crate::specs::Rows::on_row, crate::specs::Rows::term_row, listings::specs::Parts::bytes))]
pub fn row_line(grammar: Grammar, line: &[u8]) -> Option<RowLine>
    requires { (grammar.n ≤ 8) × (grammar.m ≤ 8) }
    ensures { result ≡ row_line grammar line.now }
{
    if same(line, b"end") {
        return Some(RowLine::End);
    }
    let place = field(line, 1);
    let said = outputs(grammar.m, field(line, 2));
    match grammar.kind {
        Kind::Table => row(headed(3, b"on", line), point_of(place), said),
        Kind::Listing => row(headed(3, b"term", line), read_cube(grammar.n, place), said),
    }
}
