#![tactic(auto)]
//! The cores and their window of RAM, and what each line of a trace does to them.
mod calls;
pub mod cores;
mod edits;
mod flipped;
mod leaves;
pub mod machine;
pub mod memory;
mod shared;
