// A text parted at a byte: the lines of a text, the fields of a line.
ghost use Rattle.std.specs.Prelude.{[], ◌≡◌, length, get_or};
ghost use Rattle.listings.specs.Parts.{all, parts};

// How many parts a text has: one more than it has separators.
pub fn part_count(text: &[u8], separator: u8) -> usize
    ensures { result ≡ length (all (parts separator text.now)) }
{
    text.split(|&b| b == separator).count()
}

// The part j of a text, counted from 0; empty where there is none.
pub fn part(text: &[u8], separator: u8, j: usize) -> &[u8]
    ensures { result.now ≡ get_or (all (parts separator text.now)) j [] }
{
    text.split(|&b| b == separator).nth(j).unwrap_or(&[])
}
