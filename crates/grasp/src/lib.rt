// The C surface of Copperladle, which `grasp_c` exports as `libgrasp.a`; `include/grasp.h` documents it. Functions take
// numbers, byte slices and, in `in_place`, a record that the host keeps; they keep nothing, and answer every argument.
#![tactic(auto)]

pub mod call;
pub mod in_place;
pub mod negotiating;
pub mod reading;
pub mod records;
pub mod writing;
