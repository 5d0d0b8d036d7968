// The forms that a message takes for its host: the description and the rows that the writer takes, and the block of
// numbers for a host that has neither our enums nor our structs. `include/grasp.h` names the places of a block.
#![tactic(auto)]

pub mod block;
pub mod describe;
pub mod described;
pub mod rows;
