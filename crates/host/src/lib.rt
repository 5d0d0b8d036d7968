// What a host keeps for a node, as numbers and bytes: the record, the relay table, the answer of a node call, the state
// of a negotiation.
#![tactic(auto)]

pub mod call;
pub mod records;
pub mod states;
mod table;
