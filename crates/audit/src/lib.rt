#![tactic(auto)]
//! The audit of a call: what the core is about to answer to its translations, beside what a walk made now would give,
//! and what the call invalidates.
pub mod answers;
pub mod dropped;
pub mod judged;
pub mod theorems;
