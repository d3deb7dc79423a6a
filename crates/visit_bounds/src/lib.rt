//! The bound of a section bounds runs: no visit of the section takes longer, by itself and through
//! calls, over a world and over the machine of a setup. Each theorem is the contract of a call that
//! does nothing; the statements are in specs/.

#![tactic(auto)]

pub mod calls;
pub mod premises;
pub mod sections;
pub mod setups;
