// Listings: the reading of one beside the sizes of its table. The main property: the record that is handed up is the one that the listing's
// lines show, or else the listing's first refusal; and a listing passes exactly where it is the listing of some terms with its own counts
// (proofs/Exactness). Beside a `K` table none passes (proofs/BesideKronecker).
#![tactic(auto)]

pub mod beside;
mod form;
mod inv;
pub mod read;
