// Where the bytes of an access lie, and which of them lie outside RAM.
ghost use Rattle.std.specs.Prelude.{◌≡◌, ◌≤◌};
ghost use Rattle.cpu.specs.Bytes.{in_page, next_page, crosses as crosses_of, first_pa, byte_at, first_outside};
ghost use Rattle.cpu.specs.Bytes.{first_part};

use fault::Fault;
use word::ram;

/// An access over two pages: its first `in_page` bytes lie from the physical address `pa` on, the others from `pa2` on.
#[derive(Clone, Copy)]
pub struct Pages {
    pub in_page: u64,
    pub pa: u64,
    pub pa2: u64,
}

/// The physical address of an access's bytes: of the first, where one page has them all, or of each page's.
#[derive(Clone, Copy)]
pub enum Place {
    Whole(u64),
    Split(Pages),
}

/// A fault of a translation, and the virtual address that it is reported at. Where it is the second page's, `first` is
/// the physical address of the first page's bytes.
#[derive(Clone, Copy)]
pub struct FaultAt {
    pub addr: u64,
    pub fault: Fault,
    pub first: Option<u64>,
}

/// The lowest byte of an access that lies outside RAM: which one, and its physical address.
#[derive(Clone, Copy)]
pub struct Outside {
    pub index: u64,
    pub pa: u64,
}

/// The number of bytes from va to the end of its page.
pub fn in_page(va: u64) -> u64
    ensures value { result ≡ in_page va }
    ensures upper_bound { result ≤ 4096 }
{
    4096 - va % 4096
}

/// The first address of the next page; the first page is the last one's next.
pub fn next_page(va: u64) -> u64
    ensures { result ≡ next_page va }
{
    va.wrapping_add(in_page(va))
}

/// Whether an access of n bytes takes two pages. Where stage 1 is not on none is split.
pub fn crosses(on: bool, va: u64, n: u64) -> bool
    ensures { result ≡ crosses_of on va n }
{
    on && in_page(va) < n
}

impl Place {
    /// The first byte's physical address.
    pub fn first_pa(self) -> u64
        ensures { result ≡ first_pa self }
    {
        match self {
            Place::Whole(pa) => pa,
            Place::Split(p) => p.pa,
        }
    }
}

impl Pages {
    /// The physical address of byte i.
    pub fn byte_at(self, i: u64) -> u64
        ensures { result ≡ byte_at self i }
    {
        if i < self.in_page {
            self.pa.wrapping_add(i)
        } else {
            self.pa2.wrapping_add(i - self.in_page)
        }
    }
}

/// The bytes of a split access, judged one by one: the lowest of n that lies outside a window of `len` bytes from
/// `base`.
pub fn first_outside(base: u64, len: u64, p: Pages, n: u64) -> Result<(), Outside>
    ensures { result ≡ first_outside base len p 0 n }
{
    let mut i: u64 = 0;
    while i < n {
        let pa = p.byte_at(i);
        if !ram::inside(base, len, 1, pa) {
            return Err(Outside { index: i, pa });
        }
        i += 1;
    }
    Ok(())
}

/// The bytes of the first of two pages, where the second page faults: the lowest that lies outside RAM.
pub fn first_part(base: u64, len: u64, va: u64, first: Option<u64>) -> Result<(), Outside>
    ensures { result ≡ first_part base len va first }
{
    match first {
        Some(pa) => {
            let in_page = in_page(va);
            let part = Pages {
                in_page,
                pa,
                pa2: 0,
            };
            first_outside(base, len, part, in_page)
        }
        None => Ok(()),
    }
}
