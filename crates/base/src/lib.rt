// What every layer shares, and nothing of the protocol.
#![tactic(auto)]

pub mod bytes;
