// Translations, loads, stores and fetches. None leaves anything pending where nothing was: so that is asked first, and
// such a call is that of the core alone.
ghost use Rattle.std.specs.Prelude.{◌≡◌, length};
ghost use Rattle.cpu.specs.declared.call.Call.TheVariants as Call;
ghost use Rattle.call_words.specs.declared.op.DecodedCall.TheVariants as DecodedCall;
ghost use Rattle.call_words.specs.Ops.{kind_of, translate_call};
ghost use Rattle.cluster_calls.specs.Four.{served_on};
ghost use Rattle.cluster_calls.specs.Promise.{ClusterPromise};

use crate::deliver;
use call_words::reply::Report;
use cluster::Cluster;
use cpu::check::{self, Check};

// By the data hint of the core of this number, where it has nothing pending.
#[inline(always)]
fn served(cluster: &Cluster, n: u64, va: u64, kind: u64, base: u64, len: u64) -> Option<u64>
    ensures value { result ≡ served_on cluster.now.cores n base len va (kind_of kind) }
    ensures four { length cluster.now.cores ≡ 4 }
{
    quick::hint::served_among(&cluster.cores[(n % 4) as usize], n, va, kind, base, len)
}

// The same, by the core's number, and what is pending after it.
#[cold]
#[inline(never)]
fn translate_apart(
    cluster: &mut Cluster,
    n: u64,
    va: u64,
    kind: u64,
    base: u64,
    ram: &[u8],
    ans: &mut Report,
) -> u64
    ensures { ClusterPromise (translate_call (kind_of kind) va) base ram.now cluster.old.cores n result
        ans.old ans.new ram.now cluster.new.cores }
{
    match check::core(n) {
        Ok(i) => {
            let number = core_calls::memory::translate(
                &mut cluster.cores[i],
                va,
                kind,
                ans,
                base,
                ram,
            );
            deliver::after(cluster, i, number);
            number
        }
        Err(missed) => missed.number() as u64,
    }
}

// What no hint serves. Its arguments are those of the call in their order, so that it is jumped to, and that one jump
// alone needs the slice: so the slice is looked at behind the hint.
#[inline(never)]
fn translate_rest(
    cluster: &mut Cluster,
    n: u64,
    va: u64,
    kind: u64,
    base: u64,
    ram: &[u8],
    ans: &mut Report,
) -> u64
    ensures { ClusterPromise (translate_call (kind_of kind) va) base ram.now cluster.old.cores n result
        ans.old ans.new ram.now cluster.new.cores }
{
    if deliver::is_quiet(cluster, n) {
        core_calls::memory::translate(&mut cluster.cores[n as usize], va, kind, ans, base, ram)
    } else {
        translate_apart(cluster, n, va, kind, base, ram, ans)
    }
}

/// The translation of `va` for an access of a kind: 1 read, 2 write, 4 fetch.
#[inline(always)]
pub fn translate(
    cluster: &mut Cluster,
    n: u64,
    va: u64,
    kind: u64,
    base: u64,
    ram: &[u8],
    ans: &mut Report,
) -> u64
    ensures { ClusterPromise (translate_call (kind_of kind) va) base ram.now cluster.old.cores n result
        ans.old ans.new ram.now cluster.new.cores }
{
    match served(cluster, n, va, kind, base, ram.len() as u64) {
        Some(pa) => {
            *ans = Report {
                value: pa,
                reads: 0,
            };
            0
        }
        None => translate_rest(cluster, n, va, kind, base, ram, ans),
    }
}

// The same, by the core's number, and what is pending after it.
#[cold]
#[inline(never)]
fn data_pa_apart(
    cluster: &mut Cluster,
    n: u64,
    va: u64,
    base: u64,
    ram: &[u8],
    ans: &mut Report,
) -> u64
    ensures { ClusterPromise (DecodedCall.Known (Call.DataPa va)) base ram.now cluster.old.cores n result
        ans.old ans.new ram.now cluster.new.cores }
{
    match check::core(n) {
        Ok(i) => {
            let number = core_calls::memory::data_pa(&mut cluster.cores[i], va, ans, base, ram);
            deliver::after(cluster, i, number);
            number
        }
        Err(missed) => missed.number() as u64,
    }
}

/// Where a data read of `va` goes.
#[inline(always)]
pub fn data_pa(
    cluster: &mut Cluster,
    n: u64,
    va: u64,
    base: u64,
    ram: &[u8],
    ans: &mut Report,
) -> u64
    ensures { ClusterPromise (DecodedCall.Known (Call.DataPa va)) base ram.now cluster.old.cores n result
        ans.old ans.new ram.now cluster.new.cores }
{
    if deliver::is_quiet(cluster, n) {
        core_calls::memory::data_pa(&mut cluster.cores[n as usize], va, ans, base, ram)
    } else {
        data_pa_apart(cluster, n, va, base, ram, ans)
    }
}

// The same, by the core's number, and what is pending after it.
#[cold]
#[inline(never)]
fn fetch_pa_apart(
    cluster: &mut Cluster,
    n: u64,
    va: u64,
    base: u64,
    ram: &[u8],
    ans: &mut Report,
) -> u64
    ensures { ClusterPromise (DecodedCall.Known (Call.FetchPa va)) base ram.now cluster.old.cores n result
        ans.old ans.new ram.now cluster.new.cores }
{
    match check::core(n) {
        Ok(i) => {
            let number = core_calls::memory::fetch_pa(&mut cluster.cores[i], va, ans, base, ram);
            deliver::after(cluster, i, number);
            number
        }
        Err(missed) => missed.number() as u64,
    }
}

/// Where a fetch of `va` goes.
#[inline(always)]
pub fn fetch_pa(
    cluster: &mut Cluster,
    n: u64,
    va: u64,
    base: u64,
    ram: &[u8],
    ans: &mut Report,
) -> u64
    ensures { ClusterPromise (DecodedCall.Known (Call.FetchPa va)) base ram.now cluster.old.cores n result
        ans.old ans.new ram.now cluster.new.cores }
{
    if deliver::is_quiet(cluster, n) {
        core_calls::memory::fetch_pa(&mut cluster.cores[n as usize], va, ans, base, ram)
    } else {
        fetch_pa_apart(cluster, n, va, base, ram, ans)
    }
}

// The same, by the core's number, and what is pending after it.
#[cold]
#[inline(never)]
fn load_apart(
    cluster: &mut Cluster,
    n: u64,
    va: u64,
    size: u64,
    base: u64,
    ram: &[u8],
    ans: &mut Report,
) -> u64
    ensures { ClusterPromise (DecodedCall.Known (Call.Load va size)) base ram.now cluster.old.cores n result
        ans.old ans.new ram.now cluster.new.cores }
{
    match check::core(n) {
        Ok(i) => {
            let number = core_calls::memory::load(&mut cluster.cores[i], va, size, ans, base, ram);
            deliver::after(cluster, i, number);
            number
        }
        Err(missed) => missed.number() as u64,
    }
}

/// A load of 1, 2, 4 or 8 bytes.
#[inline(always)]
pub fn load(
    cluster: &mut Cluster,
    n: u64,
    va: u64,
    size: u64,
    base: u64,
    ram: &[u8],
    ans: &mut Report,
) -> u64
    ensures { ClusterPromise (DecodedCall.Known (Call.Load va size)) base ram.now cluster.old.cores n result
        ans.old ans.new ram.now cluster.new.cores }
{
    if deliver::is_quiet(cluster, n) {
        core_calls::memory::load(&mut cluster.cores[n as usize], va, size, ans, base, ram)
    } else {
        load_apart(cluster, n, va, size, base, ram, ans)
    }
}

// The same, by the core's number, and what is pending after it.
#[cold]
#[inline(never)]
fn store_apart(
    cluster: &mut Cluster,
    n: u64,
    va: u64,
    size: u64,
    value: u64,
    base: u64,
    ram: &mut [u8],
    ans: &mut Report,
) -> u64
    ensures { ClusterPromise (DecodedCall.Known (Call.Store va size value)) base ram.old cluster.old.cores n result
        ans.old ans.new ram.new cluster.new.cores }
{
    match check::core(n) {
        Ok(i) => {
            let number = core_calls::memory::store(
                &mut cluster.cores[i],
                va,
                size,
                value,
                ans,
                base,
                ram,
            );
            deliver::after(cluster, i, number);
            number
        }
        Err(missed) => missed.number() as u64,
    }
}

/// A store of the low 1, 2, 4 or 8 bytes of a value.
#[inline(always)]
pub fn store(
    cluster: &mut Cluster,
    n: u64,
    va: u64,
    size: u64,
    value: u64,
    base: u64,
    ram: &mut [u8],
    ans: &mut Report,
) -> u64
    ensures { ClusterPromise (DecodedCall.Known (Call.Store va size value)) base ram.old cluster.old.cores n result
        ans.old ans.new ram.new cluster.new.cores }
{
    if deliver::is_quiet(cluster, n) {
        core_calls::memory::store(
            &mut cluster.cores[n as usize],
            va,
            size,
            value,
            ans,
            base,
            ram,
        )
    } else {
        store_apart(cluster, n, va, size, value, base, ram, ans)
    }
}

// The same, by the core's number, and what is pending after it.
#[inline(always)]
fn fetch_apart(
    cluster: &mut Cluster,
    n: u64,
    va: u64,
    base: u64,
    ram: &[u8],
    ans: &mut Report,
) -> u64
    ensures { ClusterPromise (DecodedCall.Known (Call.Fetch va)) base ram.now cluster.old.cores n result
        ans.old ans.new ram.now cluster.new.cores }
{
    match check::core(n) {
        Ok(i) => {
            let number = core_calls::memory::fetch(&mut cluster.cores[i], va, ans, base, ram);
            deliver::after(cluster, i, number);
            number
        }
        Err(missed) => missed.number() as u64,
    }
}

// The same of one core, with six words to hand on, so that it is jumped to.
#[cold]
#[inline(never)]
fn fetch_on<const N: u64>(
    cluster: &mut Cluster,
    va: u64,
    base: u64,
    ram: &[u8],
    ans: &mut Report,
) -> u64
    ensures { ClusterPromise (DecodedCall.Known (Call.Fetch va)) base ram.now cluster.old.cores N result
        ans.old ans.new ram.now cluster.new.cores }
{
    fetch_apart(cluster, N, va, base, ram, ans)
}

// By the core's number.
#[inline(always)]
fn fetch_by_core(
    cluster: &mut Cluster,
    n: u64,
    va: u64,
    base: u64,
    ram: &[u8],
    ans: &mut Report,
) -> u64
    ensures { ClusterPromise (DecodedCall.Known (Call.Fetch va)) base ram.now cluster.old.cores n result
        ans.old ans.new ram.now cluster.new.cores }
{
    if n == 0 {
        fetch_on::<0>(cluster, va, base, ram, ans)
    } else if n == 1 {
        fetch_on::<1>(cluster, va, base, ram, ans)
    } else if n == 2 {
        fetch_on::<2>(cluster, va, base, ram, ans)
    } else if n == 3 {
        fetch_on::<3>(cluster, va, base, ram, ans)
    } else {
        Check::Core.number() as u64
    }
}

/// The instruction at `va`.
#[inline(always)]
pub fn fetch(cluster: &mut Cluster, n: u64, va: u64, base: u64, ram: &[u8], ans: &mut Report) -> u64
    ensures { ClusterPromise (DecodedCall.Known (Call.Fetch va)) base ram.now cluster.old.cores n result
        ans.old ans.new ram.now cluster.new.cores }
{
    if deliver::is_quiet(cluster, n) {
        core_calls::memory::fetch(&mut cluster.cores[n as usize], va, ans, base, ram)
    } else {
        fetch_by_core(cluster, n, va, base, ram, ans)
    }
}
