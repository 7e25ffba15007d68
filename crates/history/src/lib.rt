#![tactic(auto)]
// Every history of a core: definitions in specs/, and the theorems about them.
pub mod theorems;
