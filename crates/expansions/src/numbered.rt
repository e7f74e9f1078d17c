// The numbers of the classes and of the families, by which they are told and compared.
ghost use Rattle.std.specs.Prelude.{◌≡◌};
ghost use Rattle.expansions.specs.Numbered.{class_number, family_number};

use crate::families::Family;
use crate::kinds::Class;

// The kind of k of a class: 1 for a digit, and 3 for an `f` field or `-`.
pub fn class_number(class: Class) -> u64
    ensures { result ≡ class_number class }
{
    match class {
        Class::Block => 1,
        Class::Free => 3,
    }
}

// The number of a family: 1 for `table`, and 2 for `table2`.
pub fn family_number(family: Family) -> u64
    ensures { result ≡ family_number family }
{
    match family {
        Family::One => 1,
        Family::Two => 2,
    }
}
