//! Programs with their traces, computed by the definitions of the world and of one thread. They are
//! in proofs/.
#![tactic(auto)]
