//! What an operation of a trace answers.
use call_words::reply;
use cpu::call::Reply;
use exception::kind::{Exception, Stop};
use flip::FlippedBit;
use std::fmt;
use walk::level::Leaf;
use windows::Pair;
use windows::pages::PageFault;

/// The reply of a call, or what a leaf of a trace, a census, a list of windows or a flip finds.
#[derive(Clone, Copy)]
pub enum Answer {
    Reply(Reply),
    /// The leaf that a walk ends in.
    Leaf(Leaf),
    Pair(u64, u64),
    /// How many of a census's counts are not 0, and the digest of all.
    Counts { count: u64, digest: u64 },
    /// The first two windows of a list that share a physical page, if two do.
    Shared(Option<Pair>),
    /// The first page of a list of windows that faults.
    Page(PageFault),
    /// The bit of RAM whose flip changes an answer, if one does.
    Flipped(Option<FlippedBit>),
}

/// Attribute index, shareability, NS and global: the first three are the descriptor's own bits.
pub fn attributes(leaf: Leaf) -> [u64; 4] {
    let desc = leaf.desc;
    [
        desc >> 2 & 7,
        desc >> 8 & 3,
        desc >> 5 & 1,
        u64::from(leaf.global),
    ]
}

impl Answer {
    /// Whether the operation was refused, as a list of windows is that has a page which faults: it changed nothing.
    pub fn refuses(self) -> bool {
        match self {
            Answer::Reply(reply) => reply.refuses(),
            Answer::Page(_) => true,
            _ => false,
        }
    }

    /// The answer in a record: its code, and three words more.
    pub fn words(self) -> [u64; 4] {
        match self {
            Answer::Reply(reply) => reply::words(reply),
            Answer::Leaf(leaf) => {
                let [index, shareability, ns, global] = attributes(leaf);
                let kind = index | shareability << 8 | ns << 16 | global << 24;
                [
                    3,
                    leaf.oa,
                    u64::from(leaf.perms) | u64::from(leaf.level) << 8,
                    kind,
                ]
            }
            Answer::Pair(a, b) => [4, a, b, 0],
            Answer::Counts { count, digest } => [11, count, digest, 0],
            Answer::Shared(Some(pair)) => [4, pair.first, pair.second, 0],
            Answer::Shared(None) | Answer::Flipped(None) => reply::words(Reply::Faults),
            Answer::Page(page) => [12, page.window, page.page, u64::from(page.fault.fsc)],
            Answer::Flipped(Some(flipped)) => [13, flipped.pa, u64::from(flipped.bit), 0],
        }
    }
}

fn reply<W: fmt::Write>(f: &mut fmt::Formatter<W>, reply: Reply) -> fmt::Result {
    match reply {
        Reply::Refused(number) => write!(f, "no {number}"),
        Reply::Done => f.write_str("ok"),
        Reply::Value(value) => write!(f, "val {value:x}"),
        Reply::Faults => f.write_str("none"),
        Reply::Fault { addr, fault } => write!(f, "fault {:x} {:02x}", addr, fault.fsc),
        Reply::Stopped(Stop::Exception(Exception::DataAbort(a))) => {
            write!(
                f,
                "data {:x} {} {:02x}",
                a.addr,
                u64::from(a.write),
                a.fault.fsc
            )
        }
        Reply::Stopped(Stop::Exception(Exception::InsnAbort(a))) => write!(
            f,
            "insn {:x} {:02x}",
            a.addr, a.fault.fsc
        ),
        Reply::Stopped(Stop::Exception(_)) => f.write_str("undefined"),
        Reply::Stopped(Stop::Unimplemented) => f.write_str("unimplemented"),
    }
}

impl fmt::Display for Answer {
    fn fmt<W: fmt::Write>(&self, f: &mut fmt::Formatter<W>) -> fmt::Result {
        match *self {
            Answer::Reply(answered) => reply(f, answered),
            Answer::Leaf(leaf) => {
                let [index, shareability, ns, global] = attributes(leaf);
                write!(f, "leaf {:x} {:x} {}", leaf.oa, leaf.perms, leaf.level)?;
                write!(f, " {index} {shareability} {ns} {global}")
            }
            Answer::Pair(a, b) => write!(f, "pair {a:x} {b:x}"),
            Answer::Counts { count, digest } => write!(f, "counts {count:x}:{digest:016x}"),
            Answer::Shared(Some(Pair { first, second })) => write!(f, "pair {first:x} {second:x}"),
            Answer::Shared(None) | Answer::Flipped(None) => f.write_str("none"),
            Answer::Flipped(Some(FlippedBit { pa, bit })) => write!(f, "bit {pa:x} {bit:x}"),
            Answer::Page(
                PageFault {
                    window,
                    page,
                    fault,
                },
            ) => { write!(f, "page {window:x} {page:x} {:02x}", fault.fsc) }
        }
    }
}
