#![tactic(auto)]
// The counters of the cache by exception level: in a line of `a72 run`, and as a table that says who walks most.
pub mod line;
pub mod report;
pub mod share;
pub mod total;
