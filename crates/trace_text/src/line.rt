//! The lines of a trace.
use cpu::call::Call;
use exception::kind::Exception;
use sysreg::regs::Regime;
use system::decode::Encoding;

#[derive(Clone, Copy)]
pub enum Line {
    Operation(Operation),
    Setup(Setup),
    Load(Load),
    Bytes(Digits),
}

/// A file's bytes go into the window.
#[derive(Clone, Copy)]
pub struct Load {
    /// where the path begins in the line, and where it ends
    pub start: usize,
    pub end: usize,
    /// the physical address of the first byte
    pub addr: u64,
}

/// Bytes of a list of windows, in a line: where their digits begin and end, two for each byte.
#[derive(Clone, Copy)]
pub struct Digits {
    pub start: usize,
    pub end: usize,
}

/// What has an answer, and a line of output.
#[derive(Clone, Copy)]
pub enum Operation {
    Call(Call),
    Leaf(Leaf),
    Poke(Poke),
}

/// A function of the registers as they stand: it changes nothing.
#[derive(Clone, Copy)]
pub enum Leaf {
    Asid,
    Stage1On(Regime),
    Untag(Regime, u64),
    Walk(Regime, u64),
    /// the code of an output size
    PaBits(u64),
    /// EL0 may write, EL1 may write, and the like: the bits 0 to 2
    Permissions(u8),
    /// the key of a register
    Bank(u32),
    /// the levels that an exception is taken from and to
    Vector {
        from: u64,
        to: u64,
        spsel: bool,
    },
    Syndrome {
        from: u64,
        to: u64,
        pc: u64,
        exception: Exception,
    },
}

/// A write of a part of the core that no call writes alone.
#[derive(Clone, Copy)]
pub enum Poke {
    Level(u64),
    Pc(u64),
    Spsel(bool),
    Generation(u32),
    Counters(u64),
    /// a pending invalidation is taken away
    Broadcast,
}

/// What stands around the operations.
#[derive(Clone, Copy)]
pub enum Setup {
    Fresh,
    /// operations go to the core of this number from now on; there are 0 to 3
    Core(u64),
    Window { base: u64, len: usize },
    /// the window's bytes become 0
    Zero,
    /// another agent writes eight bytes
    Write { addr: u64, value: u64 },
    Part(Part),
}

/// A write of the core's words.
#[derive(Clone, Copy)]
pub enum Part {
    Word {
        place: u16,
        value: u64,
    },
    Hint {
        slot: u16,
        key: u64,
        pa: u64,
    },
    /// bits: permissions 0 to 7, level 8 to 15, global 16, ASID 32 to 47
    Entry {
        slot: u16,
        tag: u64,
        generation: u64,
        bits: u64,
        pa: u64,
    },
    FetchHint {
        page: u64,
        level: u8,
        pa: u64,
    },
}

/// The longest window, in bytes: it is memory of the tool's own.
pub const LONGEST_WINDOW: usize = 0x2000_0000;

/// So many bytes of a list stand in a line at the most.
pub const LONGEST_BYTES: usize = 0x400;

/// The longest list of windows, in bytes: a right one has less than a hundredth of it.
pub const LONGEST_LIST: usize = 0x1_0000;

/// Whether a system operation is DC ZVA.
pub fn zeroes_block(at: &Encoding) -> bool {
    at.op1 == 3 && at.crn == 7 && at.crm == 4 && at.op2 == 1
}

impl Operation {
    /// Whether the descriptors that its walks read stand beside its answer.
    pub fn reports(&self) -> bool {
        matches!(
            self,
            Operation::Call(
                Call::Translate(..)
                    | Call::DataPa(_)
                    | Call::FetchPa(_)
                    | Call::Load(..)
                    | Call::Store(..)
                    | Call::Fetch(_)
                    | Call::System(_)
            )
        )
    }

    /// Whether it may change the window.
    pub fn moves_ram(&self) -> bool {
        match self {
            Operation::Call(Call::Store(..)) => true,
            Operation::Call(Call::System(at)) => zeroes_block(at),
            _ => false,
        }
    }
}

impl Line {
    /// Whether what a walk finds may differ after it.
    pub fn moves_tables(&self) -> bool {
        match self {
            Line::Operation(Operation::Call(Call::Register(_, _))) | Line::Load(_) => true,
            Line::Operation(operation) => operation.moves_ram(),
            Line::Setup(setup) => !matches!(setup, Setup::Core(_)),
            Line::Bytes(_) => false,
        }
    }
}

impl Setup {
    pub fn moves_ram(&self) -> bool {
        matches!(
            self,
            Setup::Window { .. } | Setup::Zero | Setup::Write { .. }
        )
    }
}
