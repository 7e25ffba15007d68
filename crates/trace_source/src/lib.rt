#![tactic(auto)]
//! Where a trace comes from, and what is said where it is not carried out.
pub mod report;

/// A raw dump, and the physical address of its first byte.
#[derive(Clone, Copy)]
pub struct Image<'a> {
    pub path: &'a str,
    pub addr: u64,
}

/// Where a trace comes from: a file, or standard input where the path is `-`.
#[derive(Clone, Copy)]
pub struct Trace<'a> {
    pub path: &'a str,
    /// a raw dump, which is the window before the first line
    pub image: Option<Image<'a>>,
}
