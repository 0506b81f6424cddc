// What is right of a slot, and the laws about it: specs/ has Annex A.1's encoder step by step in the annex's order, the places that are
// counted, what a corrected slot is, and the way back from the data; proofs/ has the inverse of each step. No code.
// Inner: the crates of `slot` and `silberlaus` cite it. It asks nothing.
#![tactic(auto)]
