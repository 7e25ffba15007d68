#![tactic(auto)]
//! A flipped bit shown: the walk of an address, the first bit of RAM whose flip changes its fresh answer, and what that
//! becomes; or why there is none.
pub mod found;
pub mod report;
