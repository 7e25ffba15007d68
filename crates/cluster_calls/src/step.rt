// System operations, and every call by its words.
ghost use Rattle.cpu.specs.declared.call.Call.TheVariants as Call;
ghost use Rattle.call_words.specs.declared.op.DecodedCall.TheVariants as DecodedCall;
ghost use Rattle.call_words.specs.Ops.{encoding_of, call_of};
ghost use Rattle.cluster_calls.specs.Promise.{ClusterPromise, ClusterStep};

use crate::deliver;
use call_words::op::DecodedCall;
use call_words::reply::Report;
use call_words::{op, reply};
use cluster::Cluster;
use cpu::check;
use tlb::work::Work;

/// A system operation: SYS op1, CRn, CRm, op2 with the register rt.
#[inline(always)]
pub fn system(
    cluster: &mut Cluster,
    n: u64,
    op1: u64,
    crn: u64,
    crm: u64,
    op2: u64,
    rt: u64,
    base: u64,
    ram: &mut [u8],
    ans: &mut Report,
) -> u64
    ensures { ClusterPromise (DecodedCall.Known (Call.System (encoding_of op1 crn crm op2 rt))) base ram.old
        cluster.old.cores n result ans.old ans.new ram.new cluster.new.cores }
{
    match check::core(n) {
        Ok(i) => {
            let number = core_calls::step::system(
                &mut cluster.cores[i],
                op1,
                crn,
                crm,
                op2,
                rt,
                ans,
                base,
                ram,
            );
            deliver::after(cluster, i, number);
            number
        }
        Err(missed) => missed.number() as u64,
    }
}

/// The call that eight words name: 0, and in five words its answer and the descriptors that it read; 64 where they name
/// none.
pub fn step(
    cluster: &mut Cluster,
    n: u64,
    op: &[u64; 8],
    base: u64,
    ram: &mut [u8],
    ans: &mut [u64; 5],
) -> u64
    ensures { ClusterStep (call_of op.now) base ram.old cluster.old.cores n result
        ans.old ans.new ram.new cluster.new.cores }
{
    match check::core(n) {
        Ok(_) => match op::call_of(op) {
            DecodedCall::Known(call) => {
                let mut work = Work::none();
                let answer = cluster.step(n, base, ram, call, &mut work);
                *ans = reply::step_words(answer, work);
                0
            }
            DecodedCall::Unknown => 64,
        },
        Err(missed) => missed.number() as u64,
    }
}
