//! Closed loops of the machine of a setup, an image and ports, with sampled plants at the threads'
//! ports: theorems on traces and on visits. Each theorem is the contract of a call that does
//! nothing; the statements are in specs/.

#![tactic(auto)]

pub mod traces;
pub mod visits;
