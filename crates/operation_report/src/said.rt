//! The answer of an operation by named fields.
use cpu::call::Reply;
use exception::kind::{Exception, Stop};
use flip::FlippedBit;
use json_text::{Count, Hex, Shown};
use manual_words::status::Status;
use serde::{Serialize, Serializer};
use trace_text::answer;
use trace_text::answer::Answer;
use windows::Pair;

#[derive(Clone, Copy, Serialize)]
#[serde(tag = "kind", rename_all = "snake_case")]
enum Said {
    Refused {
        check: u8,
    },
    Done,
    Value {
        value: Hex,
    },
    NoAddress,
    Fault {
        va: Hex,
        status: Hex,
        fault: Shown<Status>,
    },
    DataAbort {
        va: Hex,
        write: bool,
        status: Hex,
        fault: Shown<Status>,
    },
    InstructionAbort {
        va: Hex,
        status: Hex,
        fault: Shown<Status>,
    },
    Undefined,
    Unimplemented,
    Leaf {
        pa: Hex,
        permissions: Hex,
        level: u8,
        attrindx: u64,
        sh: u64,
        ns: u64,
        global: u64,
    },
    Pair {
        first: Hex,
        second: Hex,
    },
    Counts {
        not_zero: Count,
        digest: Hex,
    },
    SharedPage {
        first: Count,
        second: Count,
    },
    NoSharedPage,
    PageFault {
        window: Count,
        page: Count,
        status: Hex,
        fault: Shown<Status>,
    },
    Bit {
        pa: Hex,
        bit: u8,
    },
    NoBit,
}

fn words(status: u8) -> (Hex, Shown<Status>) {
    (Hex(u64::from(status)), Shown::new(Status(status)))
}

fn stopped(stop: Stop) -> Said {
    match stop {
        Stop::Exception(Exception::DataAbort(abort)) => {
            let (status, fault) = words(abort.fault.fsc);
            let (va, write) = (Hex(abort.addr), abort.write);
            Said::DataAbort {
                va,
                write,
                status,
                fault,
            }
        }
        Stop::Exception(Exception::InsnAbort(abort)) => {
            let (status, fault) = words(abort.fault.fsc);
            let va = Hex(abort.addr);
            Said::InstructionAbort { va, status, fault }
        }
        Stop::Exception(_) => Said::Undefined,
        Stop::Unimplemented => Said::Unimplemented,
    }
}

fn replied(reply: Reply) -> Said {
    match reply {
        Reply::Refused(check) => Said::Refused { check },
        Reply::Done => Said::Done,
        Reply::Value(value) => Said::Value { value: Hex(value) },
        Reply::Faults => Said::NoAddress,
        Reply::Fault { addr, fault } => {
            let (status, fault) = words(fault.fsc);
            let va = Hex(addr);
            Said::Fault { va, status, fault }
        }
        Reply::Stopped(stop) => stopped(stop),
    }
}

fn of_answer(answer: Answer) -> Said {
    match answer {
        Answer::Reply(reply) => replied(reply),
        Answer::Leaf(leaf) => {
            let [attrindx, sh, ns, global] = answer::attributes(leaf);
            Said::Leaf {
                pa: Hex(leaf.oa),
                permissions: Hex(u64::from(leaf.perms)),
                level: leaf.level,
                attrindx,
                sh,
                ns,
                global,
            }
        }
        Answer::Pair(first, second) => Said::Pair {
            first: Hex(first),
            second: Hex(second),
        },
        Answer::Counts { count, digest } => Said::Counts {
            not_zero: Count(count),
            digest: Hex(digest),
        },
        Answer::Shared(Some(Pair { first, second })) => Said::SharedPage {
            first: Count(first),
            second: Count(second),
        },
        Answer::Shared(None) => Said::NoSharedPage,
        Answer::Page(page) => {
            let (status, fault) = words(page.fault.fsc);
            Said::PageFault {
                window: Count(page.window),
                page: Count(page.page),
                status,
                fault,
            }
        }
        Answer::Flipped(Some(FlippedBit { pa, bit })) => Said::Bit { pa: Hex(pa), bit },
        Answer::Flipped(None) => Said::NoBit,
    }
}

/// Sends an answer by its kind and its fields.
pub fn answer<S: Serializer>(answer: &Answer, out: &mut S) -> Result<(), S::Error> {
    of_answer(*answer).serialize(out)
}
