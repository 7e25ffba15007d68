//! Names of kinds of operation, of answers, and of classes of difference (outside/README.md).
use cpu::call::Call;
use std::fmt;
use system::decode::Encoding;
use tlb::access::Kind as Access;
use trace_text::line;
use trace_text::line::Operation;

/// A kind of operation, in the order of the names.
#[derive(Clone, Copy)]
pub enum Kind {
    Abort,
    Census,
    DataPa,
    Flip,
    FetchPa,
    Fetch,
    LeafWalk,
    Load,
    Leaf,
    Level,
    Mark,
    Poke,
    Register,
    Store,
    At,
    ZeroBlock,
    Tlbi,
    OtherSystem,
    TranslateFetch,
    TranslateRead,
    TranslateWrite,
    Windows,
    General,
}

/// The kinds, each with its name.
pub const KINDS: [(Kind, &str); 23] = [
    (Kind::Abort, "abort"),
    (Kind::Census, "census"),
    (Kind::DataPa, "dpa"),
    (Kind::Flip, "flip"),
    (Kind::FetchPa, "fpa"),
    (Kind::Fetch, "if"),
    (Kind::LeafWalk, "l-walk"),
    (Kind::Load, "ld"),
    (Kind::Leaf, "leaf"),
    (Kind::Level, "level"),
    (Kind::Mark, "mark"),
    (Kind::Poke, "poke"),
    (Kind::Register, "reg"),
    (Kind::Store, "st"),
    (Kind::At, "sys AT"),
    (Kind::ZeroBlock, "sys DC ZVA"),
    (Kind::Tlbi, "sys TLBI"),
    (Kind::OtherSystem, "sys other"),
    (Kind::TranslateFetch, "tr fetch"),
    (Kind::TranslateRead, "tr read"),
    (Kind::TranslateWrite, "tr write"),
    (Kind::Windows, "win"),
    (Kind::General, "x"),
];

impl Kind {
    fn of_system(at: &Encoding) -> Kind {
        if line::zeroes_block(at) {
            Kind::ZeroBlock
        } else if at.crn == 7 && at.crm == 8 {
            Kind::At
        } else if at.crn == 8 {
            Kind::Tlbi
        } else {
            Kind::OtherSystem
        }
    }

    fn of_call(call: &Call) -> Kind {
        match call {
            Call::Translate(Access::Read, _) => Kind::TranslateRead,
            Call::Translate(Access::Write, _) => Kind::TranslateWrite,
            Call::Translate(Access::Fetch, _) => Kind::TranslateFetch,
            Call::DataPa(_) => Kind::DataPa,
            Call::FetchPa(_) => Kind::FetchPa,
            Call::Load(..) => Kind::Load,
            Call::Store(..) => Kind::Store,
            Call::Fetch(_) => Kind::Fetch,
            Call::System(at) => Kind::of_system(at),
            Call::Register(..) => Kind::Register,
            Call::Level(_) => Kind::Level,
            Call::Mark(_) => Kind::Mark,
            Call::General(..) => Kind::General,
            Call::Abort(_) => Kind::Abort,
            Call::Census(..) => Kind::Census,
            Call::Windows => Kind::Windows,
            Call::Flip(..) => Kind::Flip,
        }
    }

    /// The kind of an operation.
    pub fn of(operation: &Operation) -> Kind {
        match operation {
            Operation::Call(call) => Kind::of_call(call),
            Operation::Leaf(line::Leaf::Walk(..)) => Kind::LeafWalk,
            Operation::Leaf(_) => Kind::Leaf,
            Operation::Poke(_) => Kind::Poke,
        }
    }
}

/// Where the numbers of checks begin in a kind's row, behind the answers that have a name.
pub const NUMBERS: usize = ANSWERS.len();

/// Where the statuses begin.
pub const STATUSES: usize = NUMBERS + 16;

/// Where the levels of leaves begin.
pub const LEAVES: usize = STATUSES + 64;

const ANSWERS: [&str; 9] = [
    "ok",
    "val",
    "none",
    "pair",
    "undefined",
    "unimplemented",
    "PAR ok",
    "counts",
    "bit",
];

const CLASSES: [&str; 25] = [
    "agree",
    "A1 walk-abort-taken",
    "A2 el2-needs-ns",
    "R18 off-size",
    "R18 off-tag",
    "A5 off-dc",
    "A6 nstable",
    "A7 smc-tsc-smd",
    "A8 zva-far",
    "A9 at-level",
    "A10 ee",
    "A11 dze",
    "A12 uci",
    "A13 align",
    "A14 tagged-fetch",
    "M2 sif",
    "M5 ee-data",
    "B1 tsz-fault",
    "C1 block-anywhere",
    "C2 tge-walks",
    "C3 dc-nstable",
    "C4 hvc-secure",
    "C5 isv",
    "C6 split-far",
    "C8 hpd",
];

/// The name of a class of outside/README.md, by its number.
pub fn class_name(class: usize) -> &'static str {
    CLASSES.get(class).copied().unwrap_or("?")
}

// What a status is called: PAR's of an AT, a fault's of a translation or a walk, an abort's of an access, a page's of a
// list of windows.
fn status_word(kind: Kind) -> &'static str {
    match kind {
        Kind::Fetch => "insn",
        Kind::Load | Kind::Store | Kind::ZeroBlock => "data",
        Kind::At => "PAR",
        Kind::Windows => "page",
        _ => "fault",
    }
}

/// What stands at a place of a kind's row.
#[derive(Clone, Copy)]
pub struct Column {
    pub kind: Kind,
    pub place: usize,
}

impl fmt::Display for Column {
    fn fmt<W: fmt::Write>(&self, f: &mut fmt::Formatter<W>) -> fmt::Result {
        let place = self.place;
        if let Some(name) = ANSWERS.get(place) {
            return f.write_str(name);
        }
        match place {
            0..STATUSES => write!(f, "no {}", place.wrapping_sub(NUMBERS)),
            STATUSES..LEAVES => {
                let status = place - STATUSES;
                write!(f, "{} {status:02x}", status_word(self.kind))
            }
            _ => write!(f, "leaf {}", place - LEAVES),
        }
    }
}
