// The text call: it reads a table text, finds the cheapest expansion and writes its listing.
// The main property, for every text and every buffer: the result and every byte of the buffer follow from what the text means, and where a
// listing is written its own lines give every output of the table at every point, and no expansion of the class at that k is cheaper, as the
// family of the text compares.
ghost use Rattle.std.specs.Prelude.{◌≡◌, length};
ghost use Rattle.table_texts.specs.Inner.Reading.{given};
ghost use Rattle.listing_writing.specs.Write.{WriteListing};
ghost use Rattle.text.specs.Compile.{Compile};
ghost use Rattle.text.specs.Inner.Compiled.{answer_listing, compiled, buffer_after};
ghost use Rattle.table_texts.specs.Accepted.{Accepted};

use listing_writing::form::write_listing;
use listing_writing::kron::write_kronecker;
use numbers::limits::Limits;
use numbers::refusals::{Refusal, Refused};
use table_answers::answers::{Answer, answer_of};
use table_texts::read::read_table;
use table_texts::sizes::Design;

// Writes the listing of the answer, by the kind of k.
fn write_answer(design: Design, table: &[u8], output: &mut [u8]) -> Result<usize, Refusal>
    requires { Accepted design table.now }
    ensures { WriteListing (answer_listing design table.now) output.old result output.new }
{
    match answer_of(design, table) {
        Answer::Mixed(sizes, expansion) => write_listing(
            sizes.class,
            sizes.family,
            sizes.n,
            sizes.m,
            sizes.k,
            expansion,
            output,
        ),
        Answer::Kronecker { n, m, expansion } => write_kronecker(n, m, expansion, output),
    }
}

// Minimises a table that was read, and writes the listing.
#[tactic(auto, unfolding(crate::specs::Inner::Compiled::compiled, crate::specs::Inner::Compiled::buffer_after))]
fn compile_table(design: Design, table: &[u8], output: &mut [u8]) -> Result<usize, Refused>
    requires { Accepted design table.now }
    ensures value { result ≡ compiled (given design table.now) (length output.old) }
    ensures output_after { output.new ≡ buffer_after (given design table.now) output.old }
{
    Ok(write_answer(design, table, output)?)
}

// Takes a table text, and writes the listing of its answer into the front of `output`, and gives the listing's length; bytes past it keep what they held.
// Refuses a text that is none with its number and line, and a buffer shorter than the listing with 10; then no byte of the buffer changes.
pub fn compile(text: &[u8], output: &mut [u8]) -> Result<usize, Refused>
    ensures { Compile text.now output.old output.new result }
{
    let mut table = [0u8; Limits::PLACES];
    let design = read_table(text, &mut table)?;
    compile_table(design, &table, output)
}
