// The kinds of k. Document 02, W-202: "A k field of `K` selects it; the reading call returns the kind of k." W-207: "A k field of `f0`, `f1` or `f2`
// selects the free class".
ghost use Rattle.std.specs.Prelude.{◌≡◌};
ghost use Rattle.expansions.specs.Classes.{apart, most_mixed};

use numbers::limits::Limits;

// What the literals of the mixed inputs follow: in document 01's class one polarity for all terms of a block, in the free class the term's own.
#[derive(Clone, Copy, Debug, PartialEq, Eq)]
pub enum Class {
    Block,
    Free,
}

// What the field k of a table text selects: a class with k mixed inputs, or the Kronecker expansions.
#[derive(Clone, Copy, Debug, PartialEq, Eq)]
pub enum Kind {
    Mixed(Class, usize),
    Kronecker,
}

// The most inputs that are mixed: document 01's 3, and in the free class 2.
pub fn most_mixed(class: Class) -> usize
    ensures { result ≡ most_mixed class }
{
    match class {
        Class::Block => Limits::MIXED,
        Class::Free => Limits::FREE_MIXED,
    }
}

// Whether the terms of a block choose apart: in the free class, where two inputs are mixed.
pub fn apart(class: Class, k: usize) -> bool
    ensures { result ≡ apart class k }
{
    match class {
        Class::Block => false,
        Class::Free => 2 <= k,
    }
}
