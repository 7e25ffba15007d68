// The bytes of an access over two pages, both parts of which lie in RAM by one test.
ghost use Rattle.std.specs.Prelude.{◌≡◌, ◌≤◌, length};
ghost use Rattle.cpu.specs.Bytes.{Lie, split_value};
ghost use Rattle.quick.specs.AtOnce.{both_inside, both_at, both_stored, pair_at};

use cpu::place::Pages;
use word::{bits, ram};

// Whether both parts of up to eight bytes lie in RAM: a window that ends at the last address is left to the bytes.
#[tactic(auto, unfolding(crate::specs::AtOnce::both_inside))]
fn both_inside(base: u64, len: u64, p: Pages, n: u64) -> bool
    ensures { result ≡ both_inside base len p n }
{
    if u64::MAX - len < base || n < p.in_page || 8 < n {
        return false;
    }
    ram::inside(base, len, p.in_page, p.pa) && ram::inside(base, len, n - p.in_page, p.pa2)
}

// The value of a split access whose bytes lie in RAM.
fn joined(base: u64, ram: &[u8], p: Pages, n: u64) -> u64
    requires n_bound { n ≤ 8 }
    requires lie { Lie base (length ram.now) p n }
    ensures { result ≡ split_value base ram.now p 0 n }
{
    let mut v: u64 = 0;
    let mut i: u64 = n;
    while 0 < i {
        i -= 1;
        let pa = p.byte_at(i);
        v = v * 256 + bits::wide(ram[(pa - base) as usize]);
    }
    v
}

// The value of a split access.
#[tactic(auto, unfolding(crate::specs::AtOnce::both_at))]
pub(crate) fn read_both(base: u64, ram: &[u8], p: Pages, n: u64) -> Option<u64>
    ensures { result ≡ both_at base ram.now p n }
{
    if both_inside(base, ram.len() as u64, p, n) {
        Some(joined(base, ram, p, n))
    } else {
        None
    }
}

// A split store, and whether it was made. The byte writer is lent each part by itself: the first page's bytes, and then
// the others, which are those of the value above them.
pub(crate) fn write_both(base: u64, ram: &mut [u8], p: Pages, n: u64, value: u64) -> bool
    ensures { (result ≡ both_inside base (length ram.old) p n)
        × (ram.new ≡ both_stored base ram.old p n value) }
{
    if both_inside(base, ram.len() as u64, p, n) {
        let here = p.in_page;
        let rest = value >> (here * 4) >> (here * 4);
        ram::write_bytes(base, ram, here, p.pa, value);
        ram::write_bytes(base, ram, n - here, p.pa2, rest);
        true
    } else {
        false
    }
}

// The two low bytes of a value, one at the end of a page and one at the start of another, and whether it was made.
pub(crate) fn write_pair(base: u64, ram: &mut [u8], pa: u64, pa2: u64, value: u64) -> bool
    ensures { (result ≡ both_inside base (length ram.old) (pair_at pa pa2) 2)
        × (ram.new ≡ both_stored base ram.old (pair_at pa pa2) 2 value) }
{
    let p = Pages {
        in_page: 1,
        pa,
        pa2,
    };
    if both_inside(base, ram.len() as u64, p, 2) {
        ram::write_bytes(base, ram, 1, pa, value);
        ram::write_bytes(base, ram, 1, pa2, value / 256);
        true
    } else {
        false
    }
}
