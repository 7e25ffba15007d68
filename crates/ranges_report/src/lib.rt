#![tactic(auto)]
// The map of an address space as ranges: what the tables map, each range of addresses that follow one another and
// are mapped alike.
pub mod collect;
pub mod map;
pub mod report;
pub mod stretch;
pub mod theorems;
