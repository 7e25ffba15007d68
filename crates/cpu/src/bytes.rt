// Bytes moved between a value and RAM, once it is known where they lie.
#![tactic(auto, unfolding(crate::specs::Bytes::load_of, crate::specs::Bytes::verdict_of, word::specs::Ram::word_at, crate::specs::Bytes::store_ram, crate::specs::Bytes::insn_of, word::specs::Ram::little_endian))]

ghost use Rattle.std.specs.Prelude.{◌≡◌, ◌≤◌, length};
ghost use Rattle.word.specs.Ram.{bytes_in};
ghost use Rattle.cpu.specs.Bytes.{verdict_of, Lie, split_value, load_of, store_ram, insn_of};

use crate::place;
use crate::place::{Outside, Pages, Place};
use word::ram::Width;
use word::{bits, ram};

// The value of n bytes over two pages, the lowest first, where all lie in RAM.
fn split_value(base: u64, ram: &[u8], p: Pages, n: u64) -> u64
    requires n_bound { n ≤ 8 }
    requires lie { Lie base (length ram.now) p n }
    ensures { result ≡ split_value base ram.now p 0 n }
{
    let mut v: u64 = 0;
    let mut i: u64 = n;
    while 0 < i {
        i -= 1;
        let pa = p.byte_at(i);
        v = v * 256 + bits::wide(ram[(pa - base) as usize]);
    }
    v
}

fn load_split(base: u64, ram: &[u8], p: Pages, n: u64) -> Result<u64, Outside>
    requires { n ≤ 8 }
    ensures { result ≡ load_of base ram.now (Place.Split p) n }
{
    place::first_outside(base, ram.len() as u64, p, n)?;
    Ok(split_value(base, ram, p, n))
}

/// A load from a place; an error is its lowest byte outside RAM.
pub fn load(base: u64, ram: &[u8], place: Place, width: Width) -> Result<u64, Outside>
    ensures { result ≡ load_of base ram.now place (bytes_in width) }
{
    match place {
        Place::Whole(pa) => ram::read(base, ram, width, pa).ok_or(Outside { index: 0, pa }),
        Place::Split(p) => load_split(base, ram, p, width.bytes()),
    }
}

// Byte by byte, up to the first outside: those before it are written.
fn store_split(base: u64, ram: &mut [u8], p: Pages, n: u64, value: u64) -> Result<(), Outside>
    ensures { (result ≡ verdict_of base (length ram.old) (Place.Split p) n)
        × (ram.new ≡ store_ram base ram.old (Place.Split p) n value) }
{
    let mut v = value;
    let mut i: u64 = 0;
    while i < n {
        let pa = p.byte_at(i);
        if !ram::write(base, ram, Width::Byte, pa, v) {
            return Err(Outside { index: i, pa });
        }
        v = v / 256;
        i += 1;
    }
    Ok(())
}

/// A store of a value's low bytes to a place; an error is its lowest byte outside RAM, before which a split store has
/// written.
pub fn store(
    base: u64,
    ram: &mut [u8],
    place: Place,
    width: Width,
    value: u64,
) -> Result<(), Outside>
    ensures { (result ≡ verdict_of base (length ram.old) place (bytes_in width))
        × (ram.new ≡ store_ram base ram.old place (bytes_in width) value) }
{
    match place {
        Place::Whole(pa) => ram::write(base, ram, width, pa, value)
            .then_some(())
            .ok_or(Outside { index: 0, pa }),
        Place::Split(p) => store_split(base, ram, p, width.bytes(), value),
    }
}

/// The instruction at the physical address `pa`: four bytes, or nothing where one of them lies outside RAM.
pub fn insn_at(base: u64, ram: &[u8], pa: u64) -> Option<u32>
    ensures { result ≡ insn_of base ram.now pa }
{
    if !ram::inside(base, ram.len() as u64, 4, pa) {
        return None;
    }
    let at = (pa - base) as usize;
    Some(u32::from_le_bytes([ram[at], ram[at + 1], ram[at + 2], ram[at + 3]]))
}
