#![tactic(auto)]
// The calls on four cores that are lent, by the core's number: as core_calls on that core, and then what it has pending
// is delivered to the other three. 8 for a number above 3, before every other check and before words that name nothing.
// From 1 to 255 nothing is written: no core, not RAM, not the answer; but for windows' 10, where their words tell the
// page.
pub mod cores;
mod deliver;
pub mod inspect;
pub mod memory;
pub mod settings;
pub mod step;
pub mod theorems;
