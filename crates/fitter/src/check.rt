// The fitter's check of a listing beside its table text. For every pair of byte strings the answer is the one that `checked` in
// specs/Check.antt gives, and `Check` there says in document 02's words when each is given.
ghost use Rattle.std.specs.Prelude.{◌≡◌, ◌≤◌};
ghost use Rattle.listing_texts.specs.Read.{listing_reading};
ghost use Rattle.fitter.specs.Check.{Check};
ghost use Rattle.fitter.specs.Inner.Answer.{judged, judged_design};
ghost use Rattle.fitter.specs.Inner.Judging.{judged_record};

use crate::class::{all_show_back, legal_pair};
use crate::values::first_difference;
use expansions::kinds::Kind;
use listing_texts::beside::judge_beside_kronecker;
use listing_texts::read::{ListingRead, read_listing};
use numbers::limits::Limits;
use numbers::refusals::Refused;
use search::expansion::Expansion;
use table_texts::read::read_table;
use table_texts::sizes::{Design, Sizes};

// What the check says of a listing that is not refused. A refusal has the line in the table text or, for 11 and 12, in the listing.
#[derive(Clone, Copy, Debug, PartialEq, Eq)]
pub enum Verdict {
    Same,
    Differs { point: usize },
    NotOfClass,
}

// Judges a listing that passed: first the class, then the points.
#[tactic(auto, unfolding(crate::specs::Inner::Judging::judged_record, crate::specs::Inner::Differences::difference_of))]
fn judge_read(sizes: Sizes, table: &[u8; Expansion::PLACES], read: ListingRead) -> Verdict
    requires { sizes.n ≤ 8 }
    ensures { result ≡ judged_record sizes table.now read }
{
    let ListingRead {
        expansion: record,
        complements,
    } = read;
    if !legal_pair(sizes, record.mixed, record.fixed) {
        return Verdict::NotOfClass; // even with no term line
    }
    if !all_show_back(
        sizes,
        record.mixed,
        record.fixed,
        &record.blocks,
        &record.coefficients,
        &complements,
    ) {
        return Verdict::NotOfClass; // before any point is compared
    }
    match first_difference(
        sizes.n,
        &record.coefficients,
        &complements,
        record.inverted,
        table,
    ) {
        Some(point) => Verdict::Differs { point },
        None => Verdict::Same,
    }
}

// Judges a listing beside a table of a class that was read.
fn check_table(
    sizes: Sizes,
    table: &[u8; Expansion::PLACES],
    listing: &[u8],
) -> Result<Verdict, Refused>
    requires { sizes.n ≤ 8 }
    ensures { result ≡ judged sizes table.now (listing_reading sizes listing.now) }
{
    Ok(judge_read(sizes, table, read_listing(sizes, listing)?))
}

// Judges a listing beside a table that was read, by the kind of k. Beside a `K` table every listing is refused.
#[tactic(auto, unfolding(crate::specs::Inner::Answer::judged_design))]
fn check_design(
    design: Design,
    table: &[u8; Expansion::PLACES],
    listing: &[u8],
) -> Result<Verdict, Refused>
    requires { design.n ≤ 8 }
    ensures { result ≡ judged_design design table.now listing.now }
{
    let Design { n, m, kind, family } = design;
    match kind {
        Kind::Mixed(class, k) => check_table(
            Sizes {
                n,
                m,
                class,
                k,
                family,
            },
            table,
            listing,
        ),
        Kind::Kronecker => Err(judge_beside_kronecker(listing).at(1)),
    }
}

// Takes a table text and a listing, and says whether the listing is of the class, and where it first differs from the table. The text is
// judged first, and refused as the reading call refuses it; then the listing, whose refusals are 11 with its line and 12 with line 1.
pub fn check(text: &[u8], listing: &[u8]) -> Result<Verdict, Refused>
    ensures { Check text.now listing.now result }
{
    let mut table = [0u8; Limits::PLACES];
    let design = read_table(text, &mut table)?;
    check_design(design, &table, listing)
}
