#![tactic(auto)]
// The words of the boundary: the call that words name, the number and words of a reply, and one walk.
pub mod op;
pub mod reply;
pub mod tables;
pub mod theorems;
