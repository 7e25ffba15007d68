//! The physical pages that two windows share.
ghost use Rattle.std.specs.Prelude.{◌≡◌, IfOk, position};
ghost use Rattle.windows_report.specs.Shared.{is_one, shared_at, shared_from};

use fault::Fault;
use json_text::Hex;
use serde::Serialize;
use std::alloc::{AllocError, Global};

/// A physical page of two windows: its first address, and its place in each window, the first place where it has several.
#[derive(Clone, Copy, Serialize)]
pub struct Shared {
    pub pa: Hex,
    pub page_of_first: usize,
    pub page_of_second: usize,
}

// Whether two pages are one physical page.
fn is_one(page: Result<u64, Fault>, other: Result<u64, Fault>) -> bool
    ensures { result ≡ is_one page other }
{
    match (page, other) {
        (Ok(pa), Ok(other)) => pa / 4096 == other / 4096,
        _ => false,
    }
}

// The first page of a window that is the same physical page.
fn place_of(answer: Result<u64, Fault>, second: &[Result<u64, Fault>]) -> Option<usize>
    ensures { result ≡ position (is_one answer) second.now }
{
    second.iter().position(|other| is_one(answer, *other))
}

impl Shared {
    // A page of the first window, where the second has it too.
    fn new(page: usize, answer: Result<u64, Fault>, second: &[Result<u64, Fault>]) -> Option<Self>
        ensures { result ≡ shared_at second.now page answer }
    {
        let Ok(pa) = answer else {
            return None;
        };
        match place_of(answer, second) {
            Some(place) => Some(Shared {
                pa: Hex(pa / 4096 * 4096),
                page_of_first: page,
                page_of_second: place,
            }),
            None => None,
        }
    }
}

/// The physical pages that are answered to pages of both windows.
pub fn both(
    alloc: Global,
    first: &[Result<u64, Fault>],
    second: &[Result<u64, Fault>],
) -> Result<Vec<Shared>, AllocError>
    ensures { IfOk result (λ all. all.items ≡ shared_from 0 first.now second.now) }
{
    let mut all = Vec::new(alloc);
    for (page, answer) in first.iter().enumerate() {
        if let Some(shared) = Shared::new(page, *answer, second) {
            all.push(shared)?;
        }
    }
    Ok(all)
}
