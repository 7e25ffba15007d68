#![tactic(auto)]
//! An audit of the cache: beside each call the walks that the cache keeps, and of each stale answer where it comes from.
pub mod auditor;
pub mod finding;
pub mod kept;
