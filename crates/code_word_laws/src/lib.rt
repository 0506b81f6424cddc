// What is right of one code word, and the laws about it: specs/ has polynomials over the field of 16, validity, and what making and
// correcting a word leave, then what the code's own steps promise each other; proofs/ has the distance argument, once for d. No code.
// Inner: the crates of `code_word` and of `slot` cite it. It asks nothing.
#![tactic(auto)]
