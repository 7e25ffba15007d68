#![tactic(auto)]
// Numbers as bit fields, and RAM as a lent window of bytes. Every crate above cites these definitions and laws.
pub mod bits;
pub mod ram;
