// Writing into a lent buffer: bytes, words, numbers, cubes and outputs, and whole lines of a word and numbers. Every function takes the place
// to write at and gives the place after what it wrote. The main property: the bytes stand there, and every other byte is as it was.
#![tactic(auto)]

pub mod line;
pub mod writer;
pub mod written;
