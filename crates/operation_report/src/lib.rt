#![tactic(auto)]
//! An operation of a trace as it is shown: the line of output, its parts as JSON, and its words.
mod said;
pub mod show;
mod words;
