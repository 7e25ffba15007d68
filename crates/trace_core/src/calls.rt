//! A call on a core, by the function that C calls, its reply, and the descriptors that it read; and the same of a core
//! among four.
ghost use Rattle.std.specs.Prelude.{◌≡◌, ◌%◌};
ghost use Rattle.fault.specs.First.{first};
ghost use Rattle.tlb.specs.Translate.{no_work};
ghost use Rattle.cpu.specs.Step.{ram_after, step_of};
ghost use Rattle.cpu.specs.Work.{step_work};
ghost use Rattle.cluster.specs.Cluster.{four_after, four_ram, four_reply, four_work};
ghost use Rattle.trace_core.specs.Told.{data_told, insn_told, told};

use call_words::reply::Report;
use cluster::Cluster;
use core_calls::memory;
use cpu::call::{Call, Reply};
use cpu::{Core, check};
use exception::kind::{DataAbort, Exception, InsnAbort, Stop};
use fault::Fault;
use tlb::work::Work;

// The fault of a call that gave the number n: 256 and its status.
fn fault_of(n: u64) -> Fault
    ensures { result ≡ first (n % 256) }
{
    fault::first((n % 256) as u8)
}

fn data_abort(n: u64, addr: u64, write: bool) -> Reply
    ensures { result ≡ data_told n addr write }
{
    let fault = fault_of(n);
    Reply::Stopped(Stop::Exception(Exception::DataAbort(DataAbort { addr, write, fault })))
}

fn insn_abort(n: u64, addr: u64) -> Reply
    ensures { result ≡ insn_told n addr }
{
    let fault = fault_of(n);
    Reply::Stopped(Stop::Exception(Exception::InsnAbort(InsnAbort { addr, fault })))
}

// The reply of a call that gave the number n, by what it is where the call is done, and where it faults.
fn reply(n: u64, done: Reply, faulted: Reply) -> Reply
    ensures { result ≡ told n done faulted }
{
    match n {
        0 => done,
        1..256 => Reply::Refused(n as u8),
        _ => faulted,
    }
}

/// What a call replied, and the descriptors that its walks read.
#[derive(Clone, Copy)]
pub struct Carried {
    pub reply: Reply,
    pub reads: u64,
}

/// Carries out a call, by the function that C calls where it has one for it. Core, RAM, reply and reads are those of
/// the definitions: a number tells the status whole, since that is a byte of every core (`fits`).
#[tactic(auto, unfolding(call_words::specs::Ops::translate_call), using(crate::proofs::Told::told_translation, crate::proofs::Told::told_data_pa, crate::proofs::Told::told_fetch_pa, crate::proofs::Told::told_load, crate::proofs::Told::told_store, crate::proofs::Told::told_fetch, crate::proofs::Told::reads_translation, crate::proofs::Told::reads_data_pa, crate::proofs::Told::reads_fetch_pa, crate::proofs::Told::reads_load, crate::proofs::Told::reads_store, crate::proofs::Told::reads_fetch))]
pub fn carry_out(core: &mut Core, base: u64, ram: &mut [u8], call: Call) -> Carried
    ensures reply { result.reply ≡ (step_of core.old base ram.old call).reply }
    ensures reads { result.reads ≡ (step_work core.old base ram.old call no_work).reads }
    ensures core { core.new ≡ (step_of core.old base ram.old call).core }
    ensures ram { ram.new ≡ ram_after core.old base ram.old call }
{
    saved::ranges::fits(core);
    let mut report = Report { value: 0, reads: 0 };
    let reply = match call {
        Call::Translate(kind, va) => {
            let n = memory::translate(core, va, u64::from(kind), &mut report, base, ram);
            reply(
                n,
                Reply::Value(report.value),
                Reply::Fault {
                    addr: va,
                    fault: fault_of(n),
                },
            )
        }
        Call::DataPa(va) => {
            let n = memory::data_pa(core, va, &mut report, base, ram);
            reply(n, Reply::Value(report.value), Reply::Faults)
        }
        Call::FetchPa(va) => {
            let n = memory::fetch_pa(core, va, &mut report, base, ram);
            reply(n, Reply::Value(report.value), Reply::Faults)
        }
        Call::Load(va, size) => {
            let n = memory::load(core, va, size, &mut report, base, ram);
            let fault = data_abort(n, report.value, false);
            reply(n, Reply::Value(report.value), fault)
        }
        Call::Store(va, size, stored) => {
            let n = memory::store(core, va, size, stored, &mut report, base, ram);
            reply(n, Reply::Done, data_abort(n, report.value, true))
        }
        Call::Fetch(va) => {
            let n = memory::fetch(core, va, &mut report, base, ram);
            reply(n, Reply::Value(report.value), insn_abort(n, va))
        }
        _ => {
            let mut work = Work::none();
            let reply = core.step(base, ram, call, &mut work);
            report.reads = work.reads;
            reply
        }
    };
    Carried {
        reply,
        reads: report.reads,
    }
}

/// The same on the core of a number among four: one that is not refused hands on what that core then has pending. The
/// four, RAM, reply and reads are those of the definitions.
pub fn carry_out_in(cluster: &mut Cluster, n: u64, base: u64, ram: &mut [u8], call: Call) -> Carried
    ensures reply { result.reply ≡ four_reply cluster.old.cores n base ram.old call }
    ensures reads { result.reads ≡ (four_work cluster.old.cores n base ram.old call no_work).reads }
    ensures cores { cluster.new.cores ≡ four_after cluster.old.cores n base ram.old call }
    ensures ram { ram.new ≡ four_ram cluster.old.cores n base ram.old call }
{
    match check::core(n) {
        Ok(place) => {
            let carried = carry_out(&mut cluster.cores[place], base, ram, call);
            if !carried.reply.refuses() {
                cluster.deliver(place);
            }
            carried
        }
        Err(check) => Carried {
            reply: Reply::from(check),
            reads: 0,
        },
    }
}
