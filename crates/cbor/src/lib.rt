// CBOR (RFC 8949): heads, the first whole item of a slice, its tokens, and the shortest head written.
#![tactic(auto)]

pub mod head;
pub mod item;
pub mod put;
pub mod token;
