// Reading a table text, line by line; the first bad line counts. For every text and every lent table, `read_table` gives the answer and
// leaves the bytes that `ReadTable` in specs/Read.antt says.
ghost use Rattle.std.specs.Prelude.{◌≡◌, ℕ, ◌≤◌, ◌<◌, length, replicate};
ghost use Rattle.numbers.specs.Bytes.{at};
ghost use Rattle.lines.specs.Rows.{table_grammar};
ghost use Rattle.lines.specs.Inner.Steps.{rows_at, Within};
ghost use Rattle.table_texts.specs.First.{first_line};
ghost use Rattle.table_texts.specs.Read.{ReadTable};
ghost use Rattle.table_texts.specs.Inner.Reading.{with_design, judged_first, reading, stands_for};

use crate::first::first_line;
use crate::sizes::{Design, judge_design};
use fields::cursor::Cursor;
use lines::judge::{judge_rows, unfinished};
use lines::rows::{Grammar, Kind};
use numbers::limits::Limits;
use numbers::refusals::{Refusal, Refused};

// Judges the first line, at whose end the cursor is: the order is 1, 2, 3, 4.
#[tactic(auto, unfolding(crate::specs::Inner::Reading::judged_first))]
fn judge_first(stop: Cursor, bytes: &[u8]) -> Result<Design, Refused>
    requires { stop.line ≡ 1 }
    ensures { result ≡ judged_first (first_line bytes.now) }
{
    let design = first_line(bytes).ok_or(Refusal::BrokenLine.at(stop.line))?;
    judge_design(design).map_err(|refusal| refusal.at(stop.line))?;
    Ok(design)
}

// Judges the lines after the first, and puts their outputs among the rows.
#[tactic(auto, unfolding(crate::specs::Inner::Reading::stands_for, crate::specs::Inner::Reading::with_design, lines::specs::Rows::stands_for))]
fn judge_points(
    text: &[u8],
    start: Cursor,
    design: Design,
    rows: &mut [u16; Limits::PLACES],
) -> Result<Design, Refused>
    requires { (Within text.now start) × (design.n ≤ 8) × (design.m ≤ 8) }
    ensures { stands_for result rows.new ≡ with_design design (rows_at text.now (table_grammar design.n design.m) start 0 rows.old) }
{
    let grammar = Grammar {
        kind: Kind::Table,
        n: design.n,
        m: design.m,
    };
    judge_rows(text, start, grammar, rows)?;
    Ok(design)
}

// Judges the text from its first line on, and fills the rows, which come all zero.
#[tactic(auto, using(listings::proofs::Parts::stop_le))]
fn judge_text(text: &[u8], rows: &mut [u16; Limits::PLACES]) -> Result<Design, Refused>
    requires { rows.old ≡ replicate 256 0 }
    ensures { stands_for result rows.new ≡ reading text.now }
{
    let stop = Cursor::new().seek(text, b'\n');
    let to = stop.at;
    if to == text.len() {
        return Err(unfinished(text).at(stop.line));
    }
    let design = judge_first(stop, &text[..to])?;
    judge_points(text, stop.next_line(), design, rows)
}

// Copies the outputs of each point, which are a byte, into a table with as many places.
fn copy(rows: &[u16; Limits::PLACES], table: &mut [u8])
    requires { (length table.old ≡ 256) × ((p : ℕ) → at rows.now p < 256) }
    ensures { table.new ≡ rows.now }
{
    for (p, outputs) in table.iter_mut().enumerate() {
        *outputs = rows[p] as u8;
    }
}

// Reads a table text. It fills the lent table of 256 bytes, zero from 2^n on, and gives n, m, the kind of k, what `-` means in its place, and the
// family. It refuses a text by 1 to 6 with the line, and then a table of another length by 8 with line 0; under a refusal the table is as it was.
pub fn read_table(text: &[u8], table: &mut [u8]) -> Result<Design, Refused>
    ensures { ReadTable text.now table.old result table.new }
{
    let mut rows = [0u16; Limits::PLACES];
    let design = judge_text(text, &mut rows)?;
    if table.len() != Limits::PLACES {
        return Err(Refusal::BufferLength.at(0));
    }
    copy(&rows, table);
    Ok(design)
}
