// Listings, in definitions and laws alone: the bytes of an expansion's listing, and what a listing means, read from its own lines. The main
// property (proofs/ListedAnswers): the listing of the answer gives every output at every point, its first line states the counts of its
// lines, and no expansion of the class is cheaper.
#![tactic(auto)]
