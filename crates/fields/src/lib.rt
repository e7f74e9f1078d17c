// The fields of a line, of a table text or of a listing: a cursor over lines, the fields between tabs with the words in them, and what a field says that
// is a digit, a k, a number, outputs, a mask or a cube. The first word of a first line says the family. The main property: a field is taken exactly where
// it is one written for what it says (proofs/FieldsRead, proofs/Cubes).
#![tactic(auto)]

pub mod cursor;
pub mod heading;
pub mod parts;
pub mod values;
pub mod words;
