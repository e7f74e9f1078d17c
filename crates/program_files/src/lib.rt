// What the programs have alike: how many arguments they were given, when their usage is asked for, the file that an argument names or standard input, and what
// is printed, with a refusal told on standard error. What arguments and files there are is the operating system's; the contracts say that a count is within
// its bound, that what was read lies within what was lent, and how long the sentence of a refusal is.
#![tactic(auto)]

pub mod answering;
pub mod arguments;
mod failures;
pub mod reading;
pub mod sources;
pub mod telling;
