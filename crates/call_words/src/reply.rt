// A reply as a number and a report, as four words, and as the five of a step.
ghost use Rattle.std.specs.Prelude.{◌≡◌};
ghost use Rattle.call_words.specs.Replies.{exception_code, stop_code, code_by, exception_value, stop_value, value_by};
ghost use Rattle.call_words.specs.Replies.{exception_reads, stop_reads, reads_by, exception_words, stop_words};
ghost use Rattle.call_words.specs.Replies.{words_by, step_words};
ghost use Rattle.cpu.specs.Check.{storing};

use cpu::call::Reply;
use exception::kind::{Exception, Stop};
use tlb::work::Work;
use word::bits;

/// What a call reports beside its number. With a number from 1 to 255 nothing of it is written.
#[repr(C)]
#[derive(Clone, Copy)]
pub struct Report {
    /// the value, or of a data abort its address; what has neither leaves it
    pub value: u64,
    /// the table descriptors that the call's walks read
    pub reads: u64,
}

// The number of an exception that stops an operation, and the report of an abort.
fn put_answer(e: Exception, work: Work, ans: &mut Report) -> u64
    ensures number { result ≡ exception_code e }
    ensures value { ans.new.value ≡ exception_value e ans.old.value }
    ensures reads { ans.new.reads ≡ exception_reads e work.reads ans.old.reads }
{
    match e {
        Exception::DataAbort(a) => {
            *ans = Report {
                value: a.addr,
                reads: work.reads,
            };
            256 + a.fault.fsc as u64
        }
        Exception::InsnAbort(a) => {
            ans.reads = work.reads;
            256 + a.fault.fsc as u64
        }
        Exception::Undefined => 65,
        Exception::Svc(_) => 65,
        Exception::Hvc(_) => 65,
        Exception::Smc(_) => 65,
        Exception::Brk(_) => 65,
        Exception::PcAlignment => 65,
    }
}

fn stopped(stop: Stop, work: Work, ans: &mut Report) -> u64
    ensures number { result ≡ stop_code stop }
    ensures value { ans.new.value ≡ stop_value stop ans.old.value }
    ensures reads { ans.new.reads ≡ stop_reads stop work.reads ans.old.reads }
{
    match stop {
        Stop::Exception(e) => put_answer(e, work, ans),
        Stop::Unimplemented => 66,
    }
}

/// The number of a store's answer: 0, 65, 66, or 256 plus a fault's status; in `ans` the address of its data abort, and
/// how many descriptors were read. Nothing of `ans` is written with 65 and 66.
pub fn stored(answer: Result<(), Stop>, work: Work, ans: &mut Report) -> u64
    ensures number { result ≡ code_by (storing answer) }
    ensures value { ans.new.value ≡ value_by (storing answer) ans.old.value }
    ensures reads { ans.new.reads ≡ reads_by (storing answer) work.reads ans.old.reads }
{
    match answer {
        Ok(()) => {
            ans.reads = work.reads;
            0
        }
        Err(stop) => stopped(stop, work, ans),
    }
}

/// The number of a reply: 0, that of the check that was missed, 65, 66, or 256 plus a fault's status; in `ans` its
/// value, or the address of its data abort, and how many descriptors were read. With a number from 1 to 255 nothing of
/// `ans` is written.
pub fn answer(reply: Reply, work: Work, ans: &mut Report) -> u64
    ensures number { result ≡ code_by reply }
    ensures value { ans.new.value ≡ value_by reply ans.old.value }
    ensures reads { ans.new.reads ≡ reads_by reply work.reads ans.old.reads }
{
    match reply {
        Reply::Refused(n) => n as u64,
        Reply::Done => {
            ans.reads = work.reads;
            0
        }
        Reply::Value(v) => {
            *ans = Report {
                value: v,
                reads: work.reads,
            };
            0
        }
        Reply::Faults => {
            ans.reads = work.reads;
            256
        }
        Reply::Fault { addr: _, fault } => {
            ans.reads = work.reads;
            256 + fault.fsc as u64
        }
        Reply::Stopped(stop) => stopped(stop, work, ans),
    }
}

fn exception_words(e: Exception) -> [u64; 4]
    ensures { result ≡ exception_words e }
{
    match e {
        Exception::DataAbort(a) => {
            let w = bits::flag_word(a.write);
            [9, a.addr, a.fault.fsc as u64, w]
        }
        Exception::InsnAbort(a) => [10, a.addr, a.fault.fsc as u64, 0],
        Exception::Undefined => [6, 0, 0, 0],
        Exception::Svc(_) => [6, 0, 0, 0],
        Exception::Hvc(_) => [6, 0, 0, 0],
        Exception::Smc(_) => [6, 0, 0, 0],
        Exception::Brk(_) => [6, 0, 0, 0],
        Exception::PcAlignment => [6, 0, 0, 0],
    }
}

fn stop_words(stop: Stop) -> [u64; 4]
    ensures { result ≡ stop_words stop }
{
    match stop {
        Stop::Exception(e) => exception_words(e),
        Stop::Unimplemented => [7, 0, 0, 0],
    }
}

/// The four words of a reply: what it is, then what it holds (a value, an address, a status, 1 for a write).
#[tactic(auto, unfolding(crate::specs::Replies::words_by))]
pub fn words(reply: Reply) -> [u64; 4]
    ensures { result ≡ words_by reply }
{
    match reply {
        Reply::Refused(n) => [5, n as u64, 0, 0],
        Reply::Done => [0, 0, 0, 0],
        Reply::Value(v) => [1, v, 0, 0],
        Reply::Faults => [2, 0, 0, 0],
        Reply::Fault { addr, fault } => [8, addr, fault.fsc as u64, 0],
        Reply::Stopped(stop) => stop_words(stop),
    }
}

/// The four words, and then how many descriptors were read: 0 where nothing of a report is written.
pub fn step_words(reply: Reply, work: Work) -> [u64; 5]
    ensures { result ≡ step_words reply work.reads }
{
    let mut report = Report { value: 0, reads: 0 };
    answer(reply, work, &mut report);
    let [kind, a, b, c] = words(reply);
    [kind, a, b, c, report.reads]
}
