#![tactic(auto)]
// Digests: one number for a core's registers, its live entries, its hints, a window of RAM, and the counts of a census.
// A record of answers holds them.
pub mod counts;
pub mod fold;
pub mod memory;
pub mod parts;
