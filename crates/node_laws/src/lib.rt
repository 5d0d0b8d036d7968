// The laws of `node`, `names` and `negotiation`: demand 3 about whole histories, and the node call held against rules 6
// to 9; it has no code of its own.
#![tactic(auto)]
