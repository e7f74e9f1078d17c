// Document 01's marked designs, its printed example and the limits that it names, with document 02's, as one table over the definitions of every
// layer: laws alone. The main property: at each row the definitions give what the documents state (proofs/Designs, `designs-hold`).
#![tactic(auto)]
