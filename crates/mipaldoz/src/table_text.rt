// The reading call and the text call. The reading call's answer is seven numbers: the refusal's number and its line, n, m, k, the kind of k and
// the family. The text call's answer is three: the refusal's number and its line, and the listing's length.
ghost use Rattle.std.specs.Prelude.{List, ◌≡◌, ℕ, length, Result};
ghost use Rattle.numbers.specs.declared.refusals.Refused.{Refused};
ghost use Rattle.table_texts.specs.declared.sizes.Design.{Design};
ghost use Rattle.table_texts.specs.Read.{ReadTable};
ghost use Rattle.table_texts.specs.Inner.Reading.{reading, lent, stands_for, table_after};
ghost use Rattle.text.specs.Compile.{Compile};
ghost use Rattle.text.specs.Inner.Compiled.{compiled};
ghost use Rattle.mipaldoz.specs.Answers.{design_numbers, read_numbers, listing_numbers};

use expansions::kinds::Kind;
use expansions::numbered::{class_number, family_number};
use numbers::refusals::Refused;
use table_texts::sizes::Design;

// The numbers that stand for a design that was read. The kind is that of the class where k is a number, and 2 with k = 0 for `K`.
#[tactic(auto, unfolding(crate::specs::Answers::design_numbers))]
fn design_numbers(design: Design) -> [u64; 7]
    ensures { result ≡ design_numbers design }
{
    let n = design.n as u64;
    let m = design.m as u64;
    let family = family_number(design.family);
    match design.kind {
        Kind::Mixed(class, k) => [0, 0, n, m, k as u64, class_number(class), family],
        Kind::Kronecker => [0, 0, n, m, 0, 2, family],
    }
}

// The numbers that stand for the reading call's answer.
#[tactic(auto, unfolding(crate::specs::Answers::read_numbers, table_texts::specs::Inner::Reading::stands_for))]
fn read_numbers(r: Result<Design, Refused>) -> [u64; 7]
    ensures { (table : List ℕ) → result ≡ read_numbers (stands_for r table) }
{
    match r {
        Ok(design) => design_numbers(design),
        Err(Refused { refusal, line }) => [refusal.number() as u64, line as u64, 0, 0, 0, 0, 0],
    }
}

// The numbers that stand for the text call's answer.
#[tactic(auto, unfolding(crate::specs::Answers::listing_numbers))]
fn listing_numbers(r: Result<usize, Refused>) -> [u64; 3]
    ensures { result ≡ listing_numbers r }
{
    match r {
        Ok(length) => [0, 0, length as u64],
        Err(Refused { refusal, line }) => [refusal.number() as u64, line as u64, 0],
    }
}

// Takes a table text and fills a table of 256 bytes, as `table_texts::read::read_table` does, which judges and refuses.
#[unsafe(no_mangle)]
pub extern "C" fn mipaldoz_read(text: &[u8], table: &mut [u8], answer: &mut [u64; 7])
    ensures meaning { (r : Result Design Refused) × (answer.new ≡ read_numbers (stands_for r table.new)) × ReadTable text.now table.old r table.new }
    ensures bytes { table.new ≡ table_after (lent (reading text.now) (length table.old)) table.old }
    ensures answer { answer.new ≡ read_numbers (lent (reading text.now) (length table.old)) }
{
    *answer = read_numbers(table_texts::read::read_table(text, table));
}

// Takes a table text and writes the listing of its answer into the front of `output`, as `text::compile::compile` does, which judges and
// refuses.
#[unsafe(no_mangle)]
pub extern "C" fn mipaldoz_compile(text: &[u8], output: &mut [u8], answer: &mut [u64; 3])
    ensures meaning { (r : Result ℕ Refused) × (answer.new ≡ listing_numbers r) × Compile text.now output.old output.new r }
    ensures answer { answer.new ≡ listing_numbers (compiled (reading text.now) (length output.old)) }
{
    *answer = listing_numbers(text::compile::compile(text, output));
}
