#![tactic(auto)]
//! A list of windows shown: each window as runs of physical pages, whether two of them share one, and where in its file
//! a list is wrong.
pub mod pages;
pub mod refusal;
pub mod report;
pub mod run;
pub mod shared;
pub mod theorems;
