#![tactic(auto)]
// Every list of calls of a core: definitions in specs/, and the theorems about them.
pub mod theorems;
