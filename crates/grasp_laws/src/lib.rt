// The laws of the C surface, `grasp`: what a host that calls its functions one after the other may rely on; it has no
// code of its own.
#![tactic(auto)]
