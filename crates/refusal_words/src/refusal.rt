// The refusal that a program printed, read off the line `refused`, number, line.
ghost use Rattle.std.specs.Prelude.{◌≡◌};
ghost use Rattle.refusal_words.specs.PrintedRefusal.{told_refusal};

use crate::cause::line_at;
use fields::values::read_number;
use fields::words::{field, headed};

// A refusal that was told: its number, which is 0 where nothing was refused, its line, and whether it is of the listing that is checked beside the table text.
#[derive(Clone, Copy, Debug, PartialEq, Eq)]
pub struct ToldRefusal {
    pub number: usize,
    pub line: usize,
    pub listing: bool,
}

// The refusal that is told by what was printed: its number and its line, each 0 where none is told; none where both are 0.
#[tactic(auto, unfolding(crate::specs::PrintedRefusal::told_refusal, crate::specs::PrintedRefusal::told, listings::specs::Parts::bytes))]
pub fn refusal_in(printed: &[u8]) -> Option<ToldRefusal>
    ensures { result ≡ told_refusal printed.now }
{
    let line = line_at(1, printed);
    if !headed(3, b"refused", line) {
        return None;
    }
    let number = read_number(4, field(line, 1)).unwrap_or(0);
    let place = read_number(4, field(line, 2)).unwrap_or(0);
    if number == 0 && place == 0 {
        return None;
    }
    Some(ToldRefusal {
        number,
        line: place,
        listing: 10 < number,
    })
}
