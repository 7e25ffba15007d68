#![tactic(auto)]
//! The manual's names and words: system registers and system operations by name, fault statuses, syndromes, PAR_EL1 and
//! memory attributes in words.
pub mod encoding;
pub mod memory;
pub mod nearest;
pub mod operation;
pub mod par;
pub mod register;
pub mod status;
pub mod syndrome;
pub mod theorems;
