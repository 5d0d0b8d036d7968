// The laws of `writer` and `forms`: what is written, held against what is read; it has no code of its own.
#![tactic(auto)]
