// What a first line says before its field k, in a table text and in a listing alike: the family, n and m.
ghost use Rattle.std.specs.Prelude.{◌≡◌};
ghost use Rattle.fields.specs.Fields.{heading_said};

use expansions::families::Family;

// The family, n and m of a first line.
#[derive(Clone, Copy, Debug, PartialEq, Eq)]
pub struct Heading {
    pub family: Family,
    pub n: usize,
    pub m: usize,
}

// The family, n and m, where each is read.
pub fn heading_of(family: Option<Family>, n: Option<usize>, m: Option<usize>) -> Option<Heading>
    ensures { result ≡ heading_said family n m }
{
    Some(Heading {
        family: family?,
        n: n?,
        m: m?,
    })
}
