// Lines: what those of a table text and of a listing have alike. The main property, of the lines after the first of a table text and after the second of
// a listing: `judge_rows` gives the values that the lines say, or the first refusal (`later_lines` in specs/Rows.antt); and lines are taken exactly where
// they are the lines written for values (proofs/LineKinds, for both kinds of line).
#![tactic(auto)]

pub mod judge;
pub mod rows;
