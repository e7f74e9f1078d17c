// The arguments of a program.
ghost use Rattle.std.specs.Prelude.{◌||◌, ◌≡◌, ◌+◌, ◌≤◌};
ghost use Rattle.listings.specs.Parts.{same, bytes};

use crate::sources::Source;
use fields::words::same;
use std::env::{Env, FillError};

// Whether an argument asks for the usage.
#[tactic(auto, unfolding(listings::specs::Parts::bytes))]
pub fn is_help(word: &[u8]) -> bool
    ensures { result ≡ (same word.now (bytes "--help") || same word.now (bytes "-h")) }
{
    same(word, b"--help") || same(word, b"-h")
}

// How many words the program was started with, its own name among them.
fn word_count(rt: &impl Env) -> usize {
    let mut start = [0u8; 1];
    for i in 0..usize::MAX {
        if let Err(FillError::NotPresent) = rt.arg(i, &mut start) {
            return i;
        }
    }
    usize::MAX
}

// How many arguments the program was given, its own name aside; one more than `most` where there are more, or where one of them asks for the usage.
pub fn argument_count(rt: &impl Env, most: u8) -> usize
    ensures { result ≤ most + 1 }
{
    let over = usize::from(most) + 1;
    let words = word_count(rt);
    if over < words {
        return over;
    }
    let mut word = [0u8; Source::NAME_BYTES];
    for i in 1..words {
        if let Ok(length) = rt.arg(i, &mut word)
            && is_help(&word[..length])
        {
            return over;
        }
    }
    words.saturating_sub(1)
}
