// The minimising search: it hands up the expansion record of the answer of a class and a family.
ghost use Rattle.std.specs.Prelude.{◌≡◌};
ghost use Rattle.numbers.specs.Bytes.{at};
ghost use Rattle.search.specs.Found.{Found};
ghost use Rattle.search.specs.Inner.Answer.{answer_expansion, searchable};
ghost use Rattle.pairs.specs.Inner.Pairs.{Given};

use crate::expansion::Expansion;
use crate::found::expansion_of;
use blocks::rows::rows_of;
use expansions::families::Family;
use expansions::kinds::{Class, most_mixed};
use lanes::sizes::{Search, Sizes};
use numbers::refusals::{is_table, judge_sizes};
use pairs::leader::first_least;

// The record of the answer. The number of outputs is not needed: an output that there is not is zero at every point.
fn search_allowed(sizes: Sizes, table: &[u8]) -> Expansion
    requires { Given sizes.n table.now }
    ensures { result ≡ answer_expansion sizes.class sizes.family sizes.n sizes.k (at table.now) }
{
    let search = Search {
        sizes,
        rows: rows_of(sizes.class, sizes.k),
    };
    let leader = first_least(&search, table);
    expansion_of(&search, table, leader)
}

// Whether the bytes are a table of n inputs and m outputs and k is none that the documents refuse beside them.
#[tactic(auto, unfolding(crate::specs::Inner::Answer::searchable))]
fn allowed(class: Class, n: usize, m: usize, k: usize, table: &[u8]) -> bool
    ensures { result ≡ searchable class n m k table.now }
{
    is_table(n, m, table) && judge_sizes(n, m, most_mixed(class), k).is_ok()
}

// The record of the answer of a class and a family for a table of n inputs and m outputs, with k mixed inputs. Where these are not such numbers, or the
// bytes not such a table, it hands up the empty record; the calls refuse before they get here.
pub fn find_answer(
    class: Class,
    family: Family,
    n: usize,
    m: usize,
    k: usize,
    table: &[u8],
) -> Expansion
    ensures { Found class family n m k table.now result }
{
    if allowed(class, n, m, k, table) {
        return search_allowed(
            Sizes {
                n,
                class,
                k,
                family,
            },
            table,
        );
    }
    Expansion::empty(k)
}
