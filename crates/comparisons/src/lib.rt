// The listings of two table texts compared: laws alone. Document 02, W-206: the chosen outputs of a table never cost more than the whole. W-207: `f2`
// never costs more than `f1`, nor `f1` more than `f0`. W-208: `-` means `f2`, or `f1` where n = 1. The main properties: the counts on the listing of a text
// with outputs left out cost no more than those of the whole (specs/FewerPins, proofs/FewerPins `fewer-pins`), and neither do those of a text with a digit
// more after the `f` (specs/WiderFields, proofs/WiderFields `wider-fields`); a text with `-` has the listing of the text with what `-` means written out
// (specs/DashField, proofs/DashField `dash-field`).
#![tactic(auto)]
