// What is written of a frame (clause 5.3.14 of ETSI TS 103 634; request 02 §5), over the reader's own definitions: definitions and their
// laws, no code. Inner: the crates of `writer` stand over it.
#![tactic(auto)]
