#![tactic(auto)]
//! A trace from a file: its lines, and what a command does with each.
pub mod carry;
pub mod load;
pub mod run;
