#![tactic(auto)]
// The chord: sixteen voices, a page each, on the core. A voice's page is mapped to the frame that holds its note, and
// read through the core.
pub mod instrument;
pub mod note;
pub mod orders;
pub mod story;
