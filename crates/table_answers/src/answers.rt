// The answer of a table that was read, by the kind of k. The searches are lent the bytes of the points alone.
ghost use Rattle.std.specs.Prelude.{◌≡◌};
ghost use Rattle.numbers.specs.Bytes.{at};
ghost use Rattle.kronecker.specs.Inner.Answer.{answer_kronecker};
ghost use Rattle.search.specs.Inner.Answer.{answer_expansion};
ghost use Rattle.table_texts.specs.Accepted.{Accepted};
ghost use Rattle.table_texts.specs.Design.{mixed_design, kronecker_design};
ghost use Rattle.table_answers.specs.Answers.{answer_for, SizesAccepted};

use expansions::kinds::Kind;
use kronecker::answer::find_kronecker;
use kronecker::expansion::KroneckerExpansion;
use search::answer::find_answer;
use search::expansion::Expansion;
use table_texts::sizes::{Design, Sizes};

// An answer by the kind of k, with the sizes that its listing states.
#[derive(Clone, Copy)]
pub enum Answer {
    Mixed(Sizes, Expansion),
    Kronecker {
        n: usize,
        m: usize,
        expansion: KroneckerExpansion,
    },
}

// The cheapest expansion of a class with k mixed inputs.
pub fn mixed_answer(sizes: Sizes, table: &[u8]) -> Expansion
    requires { Accepted (mixed_design sizes) table.now }
    ensures { result ≡ answer_expansion sizes.class sizes.family sizes.n sizes.k (at table.now) }
{
    find_answer(
        sizes.class,
        sizes.family,
        sizes.n,
        sizes.m,
        sizes.k,
        &table[..1 << sizes.n],
    )
}

// The cheapest Kronecker expansion.
pub fn kronecker_answer(n: usize, m: usize, table: &[u8]) -> KroneckerExpansion
    requires { Accepted (kronecker_design n m) table.now }
    ensures { result ≡ answer_kronecker n (at table.now) }
{
    find_kronecker(n, m, &table[..1 << n])
}

// The answer of a table of the design, by the kind of k.
#[tactic(auto, unfolding(crate::specs::Answers::answer_for))]
pub fn answer_of(design: Design, table: &[u8]) -> Answer
    requires { Accepted design table.now }
    ensures value { result ≡ answer_for design table.now }
    ensures sizes { SizesAccepted result table.now }
{
    let Design { n, m, kind, family } = design;
    match kind {
        Kind::Mixed(class, k) => {
            let sizes = Sizes {
                n,
                m,
                class,
                k,
                family,
            };
            Answer::Mixed(sizes, mixed_answer(sizes, table))
        }
        Kind::Kronecker => {
            let expansion = kronecker_answer(n, m, table);
            Answer::Kronecker { n, m, expansion }
        }
    }
}
