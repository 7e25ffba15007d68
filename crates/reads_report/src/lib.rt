#![tactic(auto)]
//! Who reads descriptors: the pages whose walks read them, counted over a trace, and shown, those that read most first.
pub mod named;
pub mod pages;
pub mod report;
pub mod rows;
pub mod theorems;
