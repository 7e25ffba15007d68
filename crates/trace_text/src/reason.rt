//! Why a line is refused.
use thiserror::Error;

#[derive(Clone, Copy, Debug, Error)]
pub enum Reason {
    #[error("no line of a trace has this name (the nearest is {0})")]
    NoSuchLine(&'static str),
    #[error("no such exception (und, svc, hvc, smc, brk, data, insn, pca)")]
    NoSuchException,
    #[error("neither a hexadecimal number nor a register (the nearest is {0})")]
    NoSuchRegister(&'static str),
    #[error("no such operation (the nearest is {0})")]
    NoSuchOperation(&'static str),
    #[error("no general register (x0 to x30, xzr, or the number as sys has it)")]
    NotGeneral,
    #[error("an argument is missing")]
    Missing,
    #[error("a word after the last argument: a line has one operation")]
    Surplus,
    #[error("not a hexadecimal number (write it without 0x)")]
    NotNumber,
    #[error("a number of more than 64 bits")]
    Above64,
    #[error("a number of more than 32 bits, where 32 are the most")]
    Above32,
    #[error("a number of more than 16 bits, where 16 are the most")]
    Above16,
    #[error("a number of more than 8 bits, where 8 are the most")]
    Above8,
    #[error("no flag (0 or 1)")]
    NotFlag,
    #[error("no kind of access (1 read, 2 write, 4 fetch)")]
    NotKind,
    #[error("no view (0 privileged, 1 user)")]
    NotView,
    #[error("no regime (1, 2 or 3)")]
    NotRegime,
    #[error("a byte that no line holds outside a comment")]
    NotAscii,
    #[error("a byte order mark: a trace is plain text, saved without it")]
    ByteOrderMark,
    #[error("the file's bytes do not all lie in the window")]
    OutsideWindow,
    #[error("a line of more than 65000 bytes")]
    LongLine,
    #[error("a window of more than 20000000 bytes (512 MiB)")]
    LongWindow,
    #[error("an odd number of digits: a byte has two")]
    OddDigits,
    #[error("not a hexadecimal digit")]
    NotDigit,
    #[error("more than 400 bytes (1024) in one line")]
    ManyBytes,
    #[error("a list of more than 10000 bytes (64 KiB)")]
    LongList,
}

/// The reason, and the column of the word that is at fault, or of the line's end, from 1.
#[derive(Clone, Copy, Debug)]
pub struct Refusal {
    pub column: usize,
    pub reason: Reason,
}
