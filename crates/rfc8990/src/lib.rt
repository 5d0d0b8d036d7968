// What RFC 8990 and rules 1 to 4 say of messages; it has no code of its own.
#![tactic(auto)]
