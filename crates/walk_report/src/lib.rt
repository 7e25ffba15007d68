#![tactic(auto)]
// One translation, step by step: the registers, the range, each level's descriptor, the end, and what the core
// itself answers.
pub mod answer;
pub mod explain;
pub mod fields;
pub mod levels;
mod registers;
pub mod theorems;
pub mod walkthrough;
