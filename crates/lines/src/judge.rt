// Judging the rows, the lines after the first of a table text and after the second of a listing, one by one; the first bad line counts. For every text,
// grammar and values lent, `judge_rows` gives the answer and leaves the values that `later_lines` in specs/Rows.antt says.
ghost use Rattle.std.specs.Prelude.{◌≡◌, cond, ◌&&◌, ◌^◌, ◌≤◌, ◌<◌, ltb, leb, set};
ghost use Rattle.lines.specs.Rows.{unfinished, stands_for};
ghost use Rattle.lines.specs.Inner.Steps.{rows_at, Within, Stepped};

use crate::rows::{Grammar, RowLine, row_line};
use fields::cursor::Cursor;
use numbers::limits::Limits;
use numbers::refusals::{Refusal, Refused};

// The line that comes next, with the least place that it may have.
#[derive(Clone, Copy)]
struct NextRow {
    cursor: Cursor,
    least: usize,
}

// Puts a value at a place, if the place is below 2^n and at least `least`; else the values stay.
fn put_row(
    n: usize,
    least: usize,
    at: usize,
    value: usize,
    rows: &mut [u16; Limits::PLACES],
) -> bool
    requires { (n ≤ 8) × (value < 65536) }
    ensures value { result ≡ (ltb at (2 ^ n) && leb least at) }
    ensures rows_after { rows.new ≡ cond result (set rows.old at value) rows.old }
{
    if (1 << n) <= at || at < least {
        return false;
    }
    rows[at] = value as u16;
    true
}

// The refusal of a line that no byte 10 ends: 6 where nothing stands there, and else 1.
#[tactic(auto, unfolding(crate::specs::Rows::unfinished))]
pub fn unfinished(line: &[u8]) -> Refusal
    ensures { result ≡ unfinished line.now }
{
    if line.is_empty() {
        Refusal::TextEnd
    } else {
        Refusal::BrokenLine
    }
}

// Judges the line at the cursor, a row or the last, and puts its value among the values. After a row comes the next line, and after the last none.
fn judge_row(
    text: &[u8],
    cursor: Cursor,
    grammar: Grammar,
    least: usize,
    rows: &mut [u16; Limits::PLACES],
) -> Result<Option<NextRow>, Refused>
    requires { (Within text.now cursor) × (grammar.n ≤ 8) × (grammar.m ≤ 8) }
    ensures { Stepped text.now cursor grammar least rows.old result rows.new }
{
    let stop = cursor.seek(text, b'\n');
    let line = &text[cursor.at..stop.at];
    if stop.at == text.len() {
        return Err(unfinished(line).at(cursor.line));
    }
    match row_line(grammar, line) {
        Some(RowLine::Row { at, value }) => {
            if !put_row(grammar.n, least, at, value, rows) {
                return Err(Refusal::PointOrder.at(cursor.line));
            }
            Ok(Some(NextRow {
                cursor: stop.next_line(),
                least: at + 1,
            }))
        }
        Some(RowLine::End) if stop.at + 1 == text.len() => Ok(None),
        Some(RowLine::End) => Err(Refusal::TextEnd.at(cursor.line + 1)),
        None => Err(Refusal::BrokenLine.at(cursor.line)),
    }
}

// Judges the lines from the cursor on, and puts their values among the values.
#[tactic(auto, unfolding(crate::specs::Rows::stands_for))]
pub fn judge_rows(
    text: &[u8],
    start: Cursor,
    grammar: Grammar,
    rows: &mut [u16; Limits::PLACES],
) -> Result<(), Refused>
    requires { (Within text.now start) × (grammar.n ≤ 8) × (grammar.m ≤ 8) }
    ensures { stands_for result rows.new ≡ rows_at text.now grammar start 0 rows.old }
{
    let mut cursor = start;
    let mut least = 0;
    while let Some(next) = judge_row(text, cursor, grammar, least, rows)? {
        cursor = next.cursor;
        least = next.least;
    }
    Ok(())
}
