// What a program prints, and a refusal told on standard error.
ghost use Rattle.std.specs.Prelude.{cond, ◌≡◌, zero, eqb, length};
ghost use Rattle.refusal_words.specs.PrintedRefusal.{told};
ghost use Rattle.refusal_words.specs.Sentences.{sentence};

use refusal_words::refusal::{ToldRefusal, refusal_in};
use refusal_words::sentence::explain;

// Writes the sentence of a refusal of a text, of this name, and gives its length; where nothing was refused, nothing is written.
pub fn tell_refusal(errors: &impl Print, refusal: ToldRefusal, name: &[u8], text: &[u8]) -> usize
    ensures { result ≡ cond (eqb refusal.number 0) zero (length (sentence name.now refusal.number refusal.line text.now)) }
{
    if refusal.number == 0 {
        return 0;
    }
    let said = explain(name, refusal.number, refusal.line, text);
    let _ = errors.write_all(said.as_slice());
    said.length
}

// Writes what a program prints for a text, of this name, and the sentence of the refusal where that is one; gives the length of the sentence.
#[tactic(auto, unfolding(refusal_words::specs::PrintedRefusal::told_refusal))]
pub fn tell_answer(
    answers: &impl Print,
    errors: &impl Print,
    printed: &[u8],
    name: &[u8],
    text: &[u8],
) -> usize
    ensures { result ≡ cond (eqb (told 1 printed.now) 0) zero (length (sentence name.now (told 1 printed.now) (told 2 printed.now) text.now)) }
{
    let _ = answers.write_all(printed);
    match refusal_in(printed) {
        Some(refusal) => tell_refusal(errors, refusal, name, text),
        None => 0,
    }
}
