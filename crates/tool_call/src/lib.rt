#![tactic(auto)]
//! A call of the tool: its words, what is said where it is not carried out, and the usage.
pub mod arguments;
pub mod stop;
pub mod usage;
