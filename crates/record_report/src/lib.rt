#![tactic(auto)]
//! What a replay of records says: names, numbers of answers and cases, the summary; and the words of a short line.
pub mod difference;
pub mod report;
pub mod short;
pub mod tables;
pub mod tally;
