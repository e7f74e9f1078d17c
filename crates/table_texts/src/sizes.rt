// The sizes of a design: what the first line of a table text says, and the judging of it.
ghost use Rattle.std.specs.Prelude.{◌≡◌};
ghost use Rattle.table_texts.specs.Design.{design_refusal};

use expansions::families::Family;
use expansions::kinds::{Class, Kind, most_mixed};
use numbers::refusals::{Refusal, judge_sizes, judge_table};

// The inputs n, the outputs m, the class with its mixed inputs k, for a part of the family.
#[derive(Clone, Copy, Debug, PartialEq, Eq)]
pub struct Sizes {
    pub n: usize,
    pub m: usize,
    pub class: Class,
    pub k: usize,
    pub family: Family,
}

// What the first line of a table text says: the inputs n, the outputs m, the kind of k and the family.
#[derive(Clone, Copy, Debug, PartialEq, Eq)]
pub struct Design {
    pub n: usize,
    pub m: usize,
    pub kind: Kind,
    pub family: Family,
}

// Judges a design: `K` is for family one, with the sizes of its table; a number k is judged after these by the most of its class and by n.
#[tactic(auto, unfolding(crate::specs::Design::design_refusal))]
pub fn judge_design(design: Design) -> Result<(), Refusal>
    ensures { result ≡ design_refusal design }
{
    match (design.kind, design.family) {
        (Kind::Mixed(class, k), _) => judge_sizes(design.n, design.m, most_mixed(class), k),
        (Kind::Kronecker, Family::One) => judge_table(design.n, design.m),
        (Kind::Kronecker, Family::Two) => Err(Refusal::BrokenLine),
    }
}
