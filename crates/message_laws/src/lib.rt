// The laws of `message` and `options`: what is read, held against RFC 8990; it has no code of its own.
#![tactic(auto)]
