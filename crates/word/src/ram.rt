// RAM as a lent window: its first address, and its bytes. An access is 1, 2, 4 or 8 bytes, little-endian, and has all
// of its bytes in the window or moves none.
ghost use Rattle.std.specs.Prelude.{◌≡◌, ◌+◌, ◌≤◌, length};
ghost use Rattle.word.specs.Ram.{little_endian, bytes_of, bytes_in, within, word_at, written, stored, width_of};

/// How many bytes an access moves.
#[derive(Clone, Copy)]
pub enum Width {
    Byte = 1,
    Half = 2,
    Word = 4,
    Double = 8,
}

impl Width {
    /// The width of a size: 1, 2, 4 or 8.
    pub fn of_size(size: u64) -> Option<Self>
        ensures { result ≡ width_of size }
    {
        match size {
            1 => Some(Width::Byte),
            2 => Some(Width::Half),
            4 => Some(Width::Word),
            8 => Some(Width::Double),
            _ => None,
        }
    }

    /// The size of a width.
    pub fn bytes(self) -> u64
        ensures value { result ≡ bytes_in self }
        ensures upper_bound { result ≤ 8 }
    {
        self as u64
    }
}

/// Whether all `n` bytes from the address `pa` lie in a window of `len` bytes from `base`. The sum of address and size
/// does not wrap.
pub fn inside(base: u64, len: u64, n: u64, pa: u64) -> bool
    ensures { result ≡ within base len n pa }
{
    base <= pa && n <= len && pa - base <= len - n
}

// The value of a width's bytes from at, the lowest first (pimu's `load_le`).
#[tactic(auto, unfolding(crate::specs::Ram::little_endian))]
fn load_le(ram: &[u8], width: Width, at: usize) -> u64
    requires { at + bytes_in width ≤ length ram.now }
    ensures { result ≡ little_endian ram.now (bytes_in width) at }
{
    let b = &ram[at..];
    match width {
        Width::Byte => u64::from(b[0]),
        Width::Half => u64::from(u16::from_le_bytes([b[0], b[1]])),
        Width::Word => u64::from(u32::from_le_bytes([b[0], b[1], b[2], b[3]])),
        Width::Double => u64::from_le_bytes([b[0], b[1], b[2], b[3], b[4], b[5], b[6], b[7]]),
    }
}

/// The value at the physical address `pa`, or nothing where a byte of it lies outside the window.
#[tactic(auto, unfolding(crate::specs::Ram::word_at))]
pub fn read(base: u64, ram: &[u8], width: Width, pa: u64) -> Option<u64>
    ensures { result ≡ word_at base ram.now (bytes_in width) pa }
{
    if inside(base, ram.len() as u64, width.bytes(), pa) {
        Some(load_le(ram, width, (pa - base) as usize))
    } else {
        None
    }
}

// The bytes of a value over all of a part, the lowest first.
#[tactic(auto, using(crate::proofs::RamLaws::bytes_end))]
fn put_bytes(part: &mut [u8], value: u64)
    ensures { part.new ≡ bytes_of (length part.old) value }
{
    let mut v = value;
    let mut i = 0;
    while i < part.len() {
        part[i] = (v % 256) as u8;
        v = v / 256;
        i += 1;
    }
}

/// A store of the `n` low bytes of a value at the physical address `pa`: all of them, or none where a byte lies outside
/// the window. Whether it was made.
#[tactic(auto, unfolding(crate::specs::Ram::stored))]
pub fn write_bytes(base: u64, ram: &mut [u8], n: u64, pa: u64, value: u64) -> bool
    ensures made { result ≡ within base (length ram.old) n pa }
    ensures after { ram.new ≡ stored base ram.old n pa value }
{
    let fits = inside(base, ram.len() as u64, n, pa);
    if fits {
        let at = (pa - base) as usize;
        put_bytes(&mut ram[at..at + n as usize], value);
    }
    fits
}

/// A store of a width's bytes.
pub fn write(base: u64, ram: &mut [u8], width: Width, pa: u64, value: u64) -> bool
    ensures made { result ≡ within base (length ram.old) (bytes_in width) pa }
    ensures after { ram.new ≡ stored base ram.old (bytes_in width) pa value }
{
    write_bytes(base, ram, width.bytes(), pa, value)
}
