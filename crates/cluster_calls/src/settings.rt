// What sets a register, the level, the mark or a general register, and abort entry: no RAM, and no report.
ghost use Rattle.cpu.specs.declared.call.Call.TheVariants as Call;
ghost use Rattle.call_words.specs.declared.op.DecodedCall.TheVariants as DecodedCall;
ghost use Rattle.call_words.specs.Ops.{key_of, exception_at, abort_call, mark_call};
ghost use Rattle.cluster_calls.specs.Promise.{ClusterSetting};

use crate::deliver;
use cluster::Cluster;
use cpu::check;

/// A register write, by the register's key.
#[inline(always)]
pub fn register(cluster: &mut Cluster, n: u64, key: u64, value: u64) -> u64
    ensures { ClusterSetting (DecodedCall.Known (Call.Register (key_of key) value)) cluster.old.cores n
        result cluster.new.cores }
{
    match check::core(n) {
        Ok(i) => {
            let number = core_calls::settings::register(&mut cluster.cores[i], key, value);
            deliver::after(cluster, i, number);
            number
        }
        Err(missed) => missed.number() as u64,
    }
}

/// The present level, 0 to 3.
#[inline(always)]
pub fn level(cluster: &mut Cluster, n: u64, level: u64) -> u64
    ensures { ClusterSetting (DecodedCall.Known (Call.Level level)) cluster.old.cores n result cluster.new.cores }
{
    match check::core(n) {
        Ok(i) => {
            let number = core_calls::settings::level(&mut cluster.cores[i], level);
            deliver::after(cluster, i, number);
            number
        }
        Err(missed) => missed.number() as u64,
    }
}

/// A general register, X0 to X30; 31 takes nothing.
#[inline(always)]
pub fn general(cluster: &mut Cluster, n: u64, number: u64, value: u64) -> u64
    ensures { ClusterSetting (DecodedCall.Known (Call.General number value)) cluster.old.cores n result
        cluster.new.cores }
{
    match check::core(n) {
        Ok(i) => {
            let answer = core_calls::settings::general(&mut cluster.cores[i], number, value);
            deliver::after(cluster, i, answer);
            answer
        }
        Err(missed) => missed.number() as u64,
    }
}

/// The mark of unprivileged accesses, 0 or 1.
#[inline(always)]
pub fn mark(cluster: &mut Cluster, n: u64, mark: u64) -> u64
    ensures { ClusterSetting (mark_call mark) cluster.old.cores n result cluster.new.cores }
{
    match check::core(n) {
        Ok(i) => {
            let number = core_calls::settings::mark(&mut cluster.cores[i], mark);
            deliver::after(cluster, i, number);
            number
        }
        Err(missed) => missed.number() as u64,
    }
}

/// Abort entry, of an exception in four words.
#[inline(always)]
pub fn abort(cluster: &mut Cluster, n: u64, exception: &[u64; 4]) -> u64
    ensures { ClusterSetting (abort_call (exception_at exception.now)) cluster.old.cores n result cluster.new.cores }
{
    match check::core(n) {
        Ok(i) => {
            let number = core_calls::settings::abort(&mut cluster.cores[i], exception);
            deliver::after(cluster, i, number);
            number
        }
        Err(missed) => missed.number() as u64,
    }
}
