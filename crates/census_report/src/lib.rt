#![tactic(auto)]
// A census shown: a table of how pages end, and a map of the range, as text or as a picture.
pub mod grid;
pub mod letter;
mod picture;
pub mod report;
mod text;
