// Whether a listing's terms are those of an expansion of the class, in definitions and laws alone: a test, and the member that the terms show.
// The main property (proofs/Class, `class-exactly`): the test passes exactly when some member with the listing's M and i prints the
// listing's cubes. In the free class only literals outside M bind (proofs/FreeClass, `free-exactly`).
#![tactic(auto)]
