// Whatever is written reads back: the theorem of request 02 §5 about the definitions of `writer_laws` and of the reader. No code.
// Inner: `writer` stands over it.
#![tactic(auto)]
