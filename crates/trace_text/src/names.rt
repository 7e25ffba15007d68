//! Names that stand in a trace for numbers: of lines, exceptions, kinds of access, views and regimes. Capitals do not
//! matter, but in a line's own name; there they do not in `at`, `dc`, `ic` and `tlbi`.
use crate::reason::Reason;
use manual_words::nearest::Nearest;
use sysreg::regs::Regime;
use tlb::access::Kind;

// What a line may begin with.
const LINES: &str =
    "fresh window zero load bytes poke tr dpa fpa ld st if sys at dc ic tlbi reg level mark x abort census win flip \
    core l-asid l-on l-untag l-walk l-bits l-perm l-bank l-vec l-syn \
    p-level p-pc p-spsel p-gen p-cnt p-bc w-word w-hint w-entry w-fetch";

/// The exceptions, without what they carry.
#[derive(Clone, Copy)]
pub enum ExceptionName {
    Undefined,
    Svc,
    Hvc,
    Smc,
    Brk,
    DataAbort,
    InsnAbort,
    PcAlignment,
}

const EXCEPTIONS: [(&str, ExceptionName); 12] = [
    ("und", ExceptionName::Undefined),
    ("undefined", ExceptionName::Undefined),
    ("svc", ExceptionName::Svc),
    ("hvc", ExceptionName::Hvc),
    ("smc", ExceptionName::Smc),
    ("brk", ExceptionName::Brk),
    ("data", ExceptionName::DataAbort),
    ("data-abort", ExceptionName::DataAbort),
    ("insn", ExceptionName::InsnAbort),
    ("instruction-abort", ExceptionName::InsnAbort),
    ("pca", ExceptionName::PcAlignment),
    ("pc-alignment", ExceptionName::PcAlignment),
];

/// Whether a word begins with a letter, as a name does. A number of hexadecimal digits may too.
pub fn is_name(word: &[u8]) -> bool {
    match word.first() {
        Some(first) => first.is_ascii_alphabetic(),
        None => false,
    }
}

fn is(word: &[u8], name: &str) -> bool {
    word.eq_ignore_ascii_case(name.as_bytes())
}

/// The refusal of a line's first word.
pub fn no_such_line(word: &[u8]) -> Reason {
    let mut nearest = Nearest::new(word);
    for name in LINES.split_ascii_whitespace() {
        nearest.offer(name);
    }
    Reason::NoSuchLine(nearest.name)
}

/// The exception that a word names.
pub fn exception(word: &[u8]) -> Option<ExceptionName> {
    for (name, exception) in EXCEPTIONS {
        if is(word, name) {
            return Some(exception);
        }
    }
    None
}

/// The kind of access that a word names.
pub fn kind(word: &[u8]) -> Option<Kind> {
    if is(word, "read") {
        Some(Kind::Read)
    } else if is(word, "write") {
        Some(Kind::Write)
    } else if is(word, "fetch") {
        Some(Kind::Fetch)
    } else {
        None
    }
}

/// Whether it is EL0's view that a word names, or the regime's own.
pub fn is_user(word: &[u8]) -> Option<bool> {
    if is(word, "user") {
        Some(true)
    } else if is(word, "privileged") {
        Some(false)
    } else {
        None
    }
}

/// The regime that a word names.
pub fn regime(word: &[u8]) -> Option<Regime> {
    if is(word, "el1") {
        Some(Regime::El1)
    } else if is(word, "el2") {
        Some(Regime::El2)
    } else if is(word, "el3") {
        Some(Regime::El3)
    } else {
        None
    }
}
