//! Memory attributes in words: a byte of MAIR_ELx, and a descriptor's SH (DDI 0487, D17.2, MAIR_EL1).
ghost use Rattle.std.specs.Prelude.{◌≡◌};
ghost use Rattle.manual_words.specs.Memory.{attribute_at, cacheability_of, device_of, memory_of, shareability_of};
ghost use Rattle.manual_words.specs.declared.memory.Memory.TheVariants.{Normal};

use std::fmt;

/// Device memory, by what its accesses may not do: gather, be reordered, be acknowledged early.
#[derive(Clone, Copy)]
pub enum Device {
    NGnRnE,
    NGnRE,
    NGRE,
    GRE,
}

/// How Normal memory may be cached.
#[derive(Clone, Copy)]
pub enum Cacheability {
    NonCacheable,
    Cacheable {
        write_back: bool,
        transient: bool,
        read_allocate: bool,
        write_allocate: bool,
    },
}

/// What a byte of MAIR_ELx says.
#[derive(Clone, Copy)]
pub enum Memory {
    Device(Device),
    Normal {
        outer: Cacheability,
        inner: Cacheability,
    },
    Unpredictable,
}

/// A descriptor's SH.
#[derive(Clone, Copy)]
pub enum Shareability {
    NonShareable,
    Reserved,
    OuterShareable,
    InnerShareable,
}

fn device_named(kind: u8) -> Device
    ensures { result ≡ device_of kind }
{
    match kind {
        0 => Device::NGnRnE,
        1 => Device::NGnRE,
        2 => Device::NGRE,
        _ => Device::GRE,
    }
}

// Four bits of an attribute that are not 0.
fn cached(half: u8) -> Cacheability
    ensures { result ≡ cacheability_of half }
{
    if half == 4 {
        return Cacheability::NonCacheable;
    }
    Cacheability::Cacheable {
        write_back: half / 4 % 2 == 1,
        transient: half / 8 % 2 == 0,
        read_allocate: half / 2 % 2 == 1,
        write_allocate: half % 2 == 1,
    }
}

fn normal(outer: u8, inner: u8) -> Memory
    ensures { result ≡ Normal (cacheability_of outer) (cacheability_of inner) }
{
    Memory::Normal {
        outer: cached(outer),
        inner: cached(inner),
    }
}

impl Memory {
    /// What an attribute says: its outer half in bits 7 to 4, its inner in 3 to 0.
    pub fn new(attribute: u8) -> Memory
        ensures { result ≡ memory_of attribute }
    {
        let (outer, inner) = (attribute / 16 % 16, attribute % 16);
        if outer == 0 {
            if inner % 4 == 0 {
                Memory::Device(device_named(inner / 4))
            } else {
                Memory::Unpredictable
            }
        } else if inner == 0 {
            Memory::Unpredictable
        } else {
            normal(outer, inner)
        }
    }
}

impl Shareability {
    /// Bits 9 and 8 of a block's or a page's descriptor, 8 and 7 of PAR_EL1.
    pub fn new(sh: u8) -> Shareability
        ensures { result ≡ shareability_of sh }
    {
        match sh % 4 {
            0 => Shareability::NonShareable,
            1 => Shareability::Reserved,
            2 => Shareability::OuterShareable,
            _ => Shareability::InnerShareable,
        }
    }
}

/// The byte of MAIR_ELx that an index names.
pub fn attribute(mair: u64, index: u8) -> u8
    ensures { result ≡ attribute_at mair index }
{
    (mair >> (index % 8 * 8) & 0xFF) as u8
}

impl fmt::Display for Device {
    fn fmt<W: fmt::Write>(&self, f: &mut fmt::Formatter<W>) -> fmt::Result {
        f.write_str(match self {
            Device::NGnRnE => "Device-nGnRnE memory",
            Device::NGnRE => "Device-nGnRE memory",
            Device::NGRE => "Device-nGRE memory",
            Device::GRE => "Device-GRE memory",
        })
    }
}

impl fmt::Display for Cacheability {
    fn fmt<W: fmt::Write>(&self, f: &mut fmt::Formatter<W>) -> fmt::Result {
        match *self {
            Cacheability::NonCacheable => f.write_str("Non-cacheable"),
            Cacheability::Cacheable {
                write_back,
                transient,
                read_allocate,
                write_allocate,
            } => {
                f.write_str(if write_back {
                    "Write-Back"
                } else {
                    "Write-Through"
                })?;
                f.write_str(if transient {
                    " Transient"
                } else {
                    " Non-transient"
                })?;
                f.write_str(match (read_allocate, write_allocate) {
                    (true, true) => " Read-Allocate Write-Allocate",
                    (true, false) => " Read-Allocate",
                    (false, true) => " Write-Allocate",
                    (false, false) => " No-Allocate",
                })
            }
        }
    }
}

impl fmt::Display for Memory {
    fn fmt<W: fmt::Write>(&self, f: &mut fmt::Formatter<W>) -> fmt::Result {
        match *self {
            Memory::Device(device) => write!(f, "{device}"),
            Memory::Normal { outer, inner } => {
                write!(f, "Normal memory, Outer {outer}, Inner {inner}")
            }
            Memory::Unpredictable => f.write_str("UNPREDICTABLE"),
        }
    }
}

impl fmt::Display for Shareability {
    fn fmt<W: fmt::Write>(&self, f: &mut fmt::Formatter<W>) -> fmt::Result {
        f.write_str(match self {
            Shareability::NonShareable => "Non-shareable",
            Shareability::Reserved => "Reserved shareability",
            Shareability::OuterShareable => "Outer Shareable",
            Shareability::InnerShareable => "Inner Shareable",
        })
    }
}
