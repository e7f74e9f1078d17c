// Reading a listing beside the sizes of its table, line by line; the first bad line counts. For all sizes and every listing, `read_listing`
// hands up what `listing_reading` in specs/Read.antt says.
ghost use Rattle.std.specs.Prelude.{◌≡◌, ℕ, ◌≤◌, ◌<◌, replicate};
ghost use Rattle.numbers.specs.Bytes.{at};
ghost use Rattle.lines.specs.Rows as rowsRead;
ghost use Rattle.lines.specs.Inner.Steps.{rows_at, Within};
ghost use Rattle.listing_texts.specs.Read.{alike, lines_judged, grammar, listing_reading};
ghost use Rattle.listing_texts.specs.Record.{shown_read, handed_up};
ghost use Rattle.listing_texts.specs.ReadBack.{YieldsRecord};
ghost use Rattle.listing_texts.specs.Inner.Judging.{stands_for, second_at};

use crate::form::{Form, first_line};
use crate::inv::inv_line;
use expansions::kinds::most_mixed;
use fields::cursor::Cursor;
use lines::judge::judge_rows;
use lines::rows::{Grammar, Kind};
use numbers::limits::Limits;
use numbers::refusals::{Refusal, Refused, judge_sizes};
use search::expansion::Expansion;
use shown_rows::shown::{bytes_of, count_rows, shown_blocks};
use table_texts::sizes::Sizes;

// What the reading hands up: the record that the lines show, and the inputs that the cube of each term shows complemented.
#[derive(Clone, Copy)]
pub struct ListingRead {
    pub expansion: Expansion,
    pub complements: [u8; Expansion::PLACES],
}

// Why a listing was refused, and what stands for its record: the empty one of the table's k, with no complemented inputs.
#[derive(Clone, Copy)]
pub struct RefusedListing {
    pub refused: Refused,
    pub read: ListingRead,
}

// What stands for the record is left out where the refusal alone is handed on.
impl From<RefusedListing> for Refused {
    ghost from_gives = { λ listing refused. refused ≡ listing.refused };

    fn from(listing: RefusedListing) -> Refused {
        listing.refused
    }
}

// What a listing states that passed: the numbers of the first line, and the mask of the second.
#[derive(Clone, Copy)]
struct Passed {
    form: Form,
    inverted: usize,
}

// Whether the sizes of a table are none that the documents refuse, and those of the listing are the same, and so are the class and the family.
#[tactic(auto, unfolding(crate::specs::Read::alike))]
fn alike(table: Sizes, listing: Sizes) -> bool
    ensures { result ≡ alike table listing }
{
    judge_sizes(table.n, table.m, most_mixed(table.class), table.k).is_ok() && listing == table
}

// Judges the counts that the first line states, once every line has passed.
#[tactic(auto, unfolding(crate::specs::Read::lines_judged, crate::specs::Read::counts_right, crate::specs::Inner::Judging::stands_for))]
fn judge_counts(
    n: usize,
    form: Form,
    inverted: usize,
    rows: &[u16; Limits::PLACES],
) -> Result<Passed, Refused>
    requires { n ≤ 8 }
    ensures { stands_for result rows.now ≡ lines_judged n form inverted (rowsRead.rows rows.now) }
{
    let counted = count_rows(n, rows);
    if form.products != counted.products || form.literals != counted.literals {
        return Err(Refusal::UnlikeListing.at(1)); // after every line has passed
    }
    Ok(Passed { form, inverted })
}

// Judges the lines after the second, and fills the rows, which come all zero.
#[tactic(auto, unfolding(lines::specs::Rows::stands_for, crate::specs::Read::lines_judged, crate::specs::Inner::Judging::stands_for))]
fn judge_terms(
    listing: &[u8],
    start: Cursor,
    sizes: Sizes,
    form: Form,
    inverted: usize,
    rows: &mut [u16; Limits::PLACES],
) -> Result<Passed, Refused>
    requires { (Within listing.now start) × (sizes.n ≤ 8) × (sizes.m ≤ 8) }
    ensures { stands_for result rows.new ≡ lines_judged sizes.n form inverted (rows_at listing.now (grammar sizes) start 0 rows.old) }
{
    let grammar = Grammar {
        kind: Kind::Listing,
        n: sizes.n,
        m: sizes.m,
    };
    let judged = judge_rows(listing, start, grammar, rows);
    judged.map_err(|refused| Refusal::BrokenListing.at(refused.line))?;
    judge_counts(sizes.n, form, inverted, rows)
}

// Judges the listing from its second line on, which says the mask, and fills the rows, which come all zero.
fn judge_from_second(
    listing: &[u8],
    start: Cursor,
    sizes: Sizes,
    form: Form,
    rows: &mut [u16; Limits::PLACES],
) -> Result<Passed, Refused>
    requires { (Within listing.now start) × (start.line ≡ 2) × (sizes.n ≤ 8) × (sizes.m ≤ 8) × (rows.old ≡ replicate 256 0) }
    ensures { stands_for result rows.new ≡ second_at sizes form listing.now start.at }
{
    let stop = start.seek(listing, b'\n');
    let broken = Refusal::BrokenListing.at(stop.line);
    if stop.at == listing.len() {
        return Err(broken);
    }
    let inverted = inv_line(sizes.m, &listing[start.at..stop.at]).ok_or(broken)?;
    judge_terms(listing, stop.next_line(), sizes, form, inverted, rows)
}

// Judges the listing from its first line on, and fills the rows, which come all zero.
fn judge_listing(
    sizes: Sizes,
    listing: &[u8],
    rows: &mut [u16; Limits::PLACES],
) -> Result<Passed, Refused>
    requires { rows.old ≡ replicate 256 0 }
    ensures { stands_for result rows.new ≡ listing_reading sizes listing.now }
{
    let stop = Cursor::new().seek(listing, b'\n');
    let broken = Refusal::BrokenListing.at(stop.line);
    if stop.at == listing.len() {
        return Err(broken);
    }
    let form = first_line(&listing[..stop.at]).ok_or(broken)?;
    if !alike(sizes, form.sizes) {
        return Err(Refusal::UnlikeListing.at(stop.line)); // before any later line is read
    }
    judge_from_second(listing, stop.next_line(), sizes, form, rows)
}

// The record of a listing that passed.
fn shown_listing(
    sizes: Sizes,
    form: Form,
    inverted: usize,
    rows: &[u16; Limits::PLACES],
) -> ListingRead
    requires { (sizes.n ≤ 8) × (sizes.k ≤ 3) × (inverted < 256) × ((t : ℕ) → at rows.now t < 65536) }
    ensures { result ≡ shown_read sizes form inverted rows.now }
{
    let complements = bytes_of(rows, 8);
    ListingRead {
        expansion: Expansion {
            coefficients: bytes_of(rows, 0),
            blocks: shown_blocks(sizes.class, sizes.n, sizes.k, form.mixed, &complements),
            mixed: form.mixed,
            fixed: form.fixed,
            products: form.products,
            literals: form.literals,
            inverted: inverted as u8,
        },
        complements,
    }
}

// Reads a listing beside a table with these sizes. It hands up the record that the lines show, mask and all, a polarity that no cube shows being
// plain, and the inputs that each cube shows complemented. It refuses a bad line by 11, with the line, and a family, a class, sizes or counts that
// are not the table's or the lines' by 12, with line 1; then the record is the empty one. The listing of a member's record has that record handed up,
// as far as its cubes show it.
#[tactic(auto, unfolding(crate::specs::Record::handed_up, crate::specs::Inner::Judging::stands_for))]
pub fn read_listing(sizes: Sizes, listing: &[u8]) -> Result<ListingRead, RefusedListing>
    ensures reading { result ≡ handed_up sizes (listing_reading sizes listing.now) }
    ensures had_back { YieldsRecord sizes listing.now result }
{
    let mut rows = [0u16; Limits::PLACES];
    let judged = judge_listing(sizes, listing, &mut rows);
    let passed = judged.map_err(|refused| RefusedListing {
        refused,
        read: ListingRead {
            expansion: Expansion::empty(sizes.k),
            complements: [0; Expansion::PLACES],
        },
    })?;
    Ok(shown_listing(sizes, passed.form, passed.inverted, &rows))
}
