//! Why a list is wrong, and at which byte.
ghost use Rattle.std.specs.Prelude.{◌≡◌};
ghost use Rattle.word.specs.Ram.{bytes_in};
ghost use Rattle.windows_report.specs.Refusal.{count_in, pages_place, refusal_of, start_place, value_at};

use std::fmt;
use windows::list::Malformed;
use word::ram;
use word::ram::Width;

/// Why a list is wrong, and the byte that is at fault: of a wrong length where the file ends.
#[derive(Clone, Copy, Debug)]
pub struct Refusal {
    pub byte: u64,
    pub reason: Reason,
}

#[derive(Clone, Copy, Debug)]
pub enum Reason {
    /// so many bytes, and how many there should be
    Bytes { are: u64, want: u64 },
    Count(u64),
    Start { window: u64, start: u64 },
    Pages { window: u64, pages: u64 },
    End { window: u64, start: u64, pages: u64 },
}

// The number of so many bytes at a place; 0 where the list does not hold them.
fn value(list: &[u8], width: Width, place: u64) -> u64
    ensures { result ≡ value_at list.now (bytes_in width) place }
{
    ram::read(0, list, width, place).unwrap_or(0)
}

// How many windows a list says it has.
fn count(list: &[u8]) -> u64
    ensures { result ≡ count_in list.now }
{
    value(list, Width::Half, 0)
}

// Where a window's first address stands. Of a list in memory no place is past 2^64.
fn start_place(window: u64) -> u64
    ensures { result ≡ start_place window }
{
    window.wrapping_mul(8).wrapping_add(2)
}

// Where its length stands, behind the first addresses of all.
fn pages_place(list: &[u8], window: u64) -> u64
    ensures { result ≡ pages_place list.now window }
{
    start_place(count(list)).wrapping_add(window.wrapping_mul(2))
}

impl Refusal {
    /// What a list is refused for, with its own numbers.
    pub fn new(why: Malformed, list: &[u8]) -> Self
        ensures { result ≡ refusal_of why list.now }
    {
        let start = |window| value(list, Width::Double, start_place(window));
        let pages = |window| value(list, Width::Half, pages_place(list, window));
        match why {
            Malformed::Length => Refusal {
                byte: list.len() as u64,
                reason: Reason::Bytes {
                    are: list.len() as u64,
                    want: pages_place(list, count(list)),
                },
            },
            Malformed::Count => Refusal {
                byte: 0,
                reason: Reason::Count(count(list)),
            },
            Malformed::Start(window) => Refusal {
                byte: start_place(window),
                reason: Reason::Start {
                    window,
                    start: start(window),
                },
            },
            Malformed::Pages(window) => Refusal {
                byte: pages_place(list, window),
                reason: Reason::Pages {
                    window,
                    pages: pages(window),
                },
            },
            Malformed::End(window) => Refusal {
                byte: start_place(window),
                reason: Reason::End {
                    window,
                    start: start(window),
                    pages: pages(window),
                },
            },
        }
    }
}

impl fmt::Display for Reason {
    fn fmt<W: fmt::Write>(&self, f: &mut fmt::Formatter<W>) -> fmt::Result {
        match *self {
            Reason::Bytes { are, want } => write!(f, "bytes in all: {are}, not {want}"),
            Reason::Count(count) => write!(f, "{count} windows, at most 64 are allowed"),
            Reason::Start { window, start } => {
                write!(
                    f,
                    "window {window} starts at {start:016x}, not on a page of 4 KiB"
                )
            }
            Reason::Pages { window, pages: 0 } => {
                write!(f, "window {window} has no page, at least 1 is wanted")
            }
            Reason::Pages { window, pages } => {
                write!(
                    f,
                    "window {window} has {pages} pages, at most 16 are allowed"
                )
            }
            Reason::End {
                window,
                start,
                pages,
            } => write!(
                f,
                "window {window} starts at {start:016x}, and its {pages} pages pass 2^64"
            ),
        }
    }
}
