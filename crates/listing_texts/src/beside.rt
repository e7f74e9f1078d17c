// A listing beside a `K` table. No listing passes there: a `form` or `form2` listing is refused by 12, and any other by 11, each with line 1.
ghost use Rattle.std.specs.Prelude.{◌≡◌};
ghost use Rattle.listing_texts.specs.Read.{beside_kronecker};

use crate::form::first_line;
use fields::cursor::Cursor;
use numbers::refusals::Refusal;

// The listing's refusal: 12 where its first line is a `form` or `form2` line, and 11 where that line is broken or no byte 10 ends it.
pub fn judge_beside_kronecker(listing: &[u8]) -> Refusal
    ensures { result ≡ beside_kronecker listing.now }
{
    let stop = Cursor::new().seek(listing, b'\n');
    if stop.at == listing.len() || first_line(&listing[..stop.at]).is_none() {
        Refusal::BrokenListing
    } else {
        Refusal::UnlikeListing
    }
}
