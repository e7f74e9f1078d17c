// A refusal in words, for people: what a program printed on standard output as `refused`, number, line is told as one sentence with the file, the line, what
// the number means and the cause where the line shows it. The main property, for every name, number, line and text: `explain` hands out the bytes of
// `sentence` in specs/Sentences.antt. The programs read the refusal off what they print (`refusal_in`), so that one function serves all of them.
#![tactic(auto)]

mod cause;
pub mod refusal;
pub mod sentence;
