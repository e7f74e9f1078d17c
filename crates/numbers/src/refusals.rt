// Document 01, "Why a call declines", and document 02, W-201: the refusals, and what the calls judge alike.
ghost use Rattle.std.specs.Prelude.{◌≡◌, ◌^◌};
ghost use Rattle.numbers.specs.Bytes.{all_below};
ghost use Rattle.numbers.specs.Refusals.{number_of, declined, table_refusal, sizes_refusal, is_table};

use crate::limits::Limits;

// Why a call declines, one case for each number of the documents.
#[derive(Clone, Copy, Debug, PartialEq, Eq)]
pub enum Refusal {
    BrokenLine,
    InputCount,
    OutputCount,
    MixedCount,
    PointOrder,
    TextEnd,
    PolarityRange,
    BufferLength,
    HighBit,
    OutputRoom,
    BrokenListing,
    UnlikeListing,
}

// A refusal with its line, counted from 1, and 0 for refusals 7 to 10 and for calls without text.
#[derive(Clone, Copy, Debug, PartialEq, Eq)]
pub struct Refused {
    pub refusal: Refusal,
    pub line: usize,
}

impl Refusal {
    // The number that the documents give it.
    pub fn number(self) -> usize
        ensures { result ≡ number_of self }
    {
        match self {
            Refusal::BrokenLine => 1,
            Refusal::InputCount => 2,
            Refusal::OutputCount => 3,
            Refusal::MixedCount => 4,
            Refusal::PointOrder => 5,
            Refusal::TextEnd => 6,
            Refusal::PolarityRange => 7,
            Refusal::BufferLength => 8,
            Refusal::HighBit => 9,
            Refusal::OutputRoom => 10,
            Refusal::BrokenListing => 11,
            Refusal::UnlikeListing => 12,
        }
    }

    // The refusal in this line of a text.
    pub fn at(self, line: usize) -> Refused
        ensures { result ≡ declined self line }
    {
        Refused {
            refusal: self,
            line,
        }
    }
}

// Where no text is judged the line is 0.
impl From<Refusal> for Refused {
    ghost from_gives = { λ refusal refused. refused ≡ declined refusal 0 };

    fn from(refusal: Refusal) -> Refused {
        refusal.at(0)
    }
}

// Judges the sizes of a table: n is 1 to 8, and then m is.
#[tactic(auto, unfolding(crate::specs::Refusals::table_refusal))]
pub fn judge_table(n: usize, m: usize) -> Result<(), Refusal>
    ensures { result ≡ table_refusal n m }
{
    if n < 1 || Limits::INPUTS < n {
        return Err(Refusal::InputCount);
    }
    if m < 1 || Limits::OUTPUTS < m {
        return Err(Refusal::OutputCount);
    }
    Ok(())
}

// Judges the sizes of a design: those of its table, and then k, which is neither above the most mixed inputs of its class nor above n.
#[tactic(auto, unfolding(crate::specs::Refusals::sizes_refusal))]
pub fn judge_sizes(n: usize, m: usize, most: usize, k: usize) -> Result<(), Refusal>
    ensures { result ≡ sizes_refusal n m most k }
{
    judge_table(n, m)?;
    if most < k || n < k {
        return Err(Refusal::MixedCount);
    }
    Ok(())
}

// Whether no byte has a bit at m or above. A byte has as many bits as there can be outputs.
pub fn within_outputs(m: usize, bytes: &[u8]) -> bool
    ensures { result ≡ all_below (2 ^ m) bytes.now }
{
    m >= Limits::OUTPUTS || bytes.iter().fold(0, |seen, &byte| seen | byte) < 1 << m
}

// Whether n and m are none that document 01 refuses and the bytes are a table of n inputs and m outputs.
#[tactic(auto, using(crate::proofs::refusals::Judging::table_shifts), unfolding(crate::specs::Refusals::is_table))]
pub fn is_table(n: usize, m: usize, bytes: &[u8]) -> bool
    ensures { result ≡ is_table n m bytes.now }
{
    judge_table(n, m).is_ok() && bytes.len() == 1 << n && within_outputs(m, bytes)
}
