// The calls on four cores: each as that of a single core, with the cluster and the core's number before it.
ghost use Rattle.std.specs.Prelude.{◌≡◌};
ghost use Rattle.cluster.specs.Cluster.{core_in, put_in};
ghost use Rattle.cpu.specs.declared.call.Call.TheVariants as Call;
ghost use Rattle.call_words.specs.declared.op.DecodedCall.TheVariants as DecodedCall;
ghost use Rattle.call_words.specs.Ops.{key_of, kind_of, encoding_of, exception_at};
ghost use Rattle.call_words.specs.Ops.{abort_call, mark_call, call_of, translate_call};
ghost use Rattle.cluster_calls.specs.Four.{if_core};
ghost use Rattle.cluster_calls.specs.Looks.{ClusterCensus, ClusterWindows, ClusterFlip};
ghost use Rattle.cluster_calls.specs.Promise.{ClusterPromise, ClusterSetting, ClusterStep};

use call_words::reply::Report;
use cluster_calls::{cores, inspect, memory, settings, step};
use handle::{ClusterHandle, Handle};

/// The translation of `va` for an access of a kind: 1 read, 2 write, 4 fetch.
#[unsafe(no_mangle)]
pub extern "C" fn a72_cluster_translate(
    handle: &mut ClusterHandle,
    core: u64,
    va: u64,
    kind: u64,
    base: u64,
    ram: &[u8],
    answer: &mut Report,
) -> u64
    ensures { ClusterPromise (translate_call (kind_of kind) va) base ram.now
        handle.old.cluster.cores core result answer.old answer.new ram.now handle.new.cluster.cores }
{
    memory::translate(handle.cluster(), core, va, kind, base, ram, answer)
}

/// Where a data read of `va` goes.
#[unsafe(no_mangle)]
pub extern "C" fn a72_cluster_data_pa(
    handle: &mut ClusterHandle,
    core: u64,
    va: u64,
    base: u64,
    ram: &[u8],
    answer: &mut Report,
) -> u64
    ensures { ClusterPromise (DecodedCall.Known (Call.DataPa va)) base ram.now
        handle.old.cluster.cores core result answer.old answer.new ram.now handle.new.cluster.cores }
{
    memory::data_pa(handle.cluster(), core, va, base, ram, answer)
}

/// Where a fetch of `va` goes.
#[unsafe(no_mangle)]
pub extern "C" fn a72_cluster_fetch_pa(
    handle: &mut ClusterHandle,
    core: u64,
    va: u64,
    base: u64,
    ram: &[u8],
    answer: &mut Report,
) -> u64
    ensures { ClusterPromise (DecodedCall.Known (Call.FetchPa va)) base ram.now
        handle.old.cluster.cores core result answer.old answer.new ram.now handle.new.cluster.cores }
{
    memory::fetch_pa(handle.cluster(), core, va, base, ram, answer)
}

/// A load of 1, 2, 4 or 8 bytes.
#[unsafe(no_mangle)]
pub extern "C" fn a72_cluster_load(
    handle: &mut ClusterHandle,
    core: u64,
    va: u64,
    size: u64,
    base: u64,
    ram: &[u8],
    answer: &mut Report,
) -> u64
    ensures { ClusterPromise (DecodedCall.Known (Call.Load va size)) base ram.now
        handle.old.cluster.cores core result answer.old answer.new ram.now handle.new.cluster.cores }
{
    memory::load(handle.cluster(), core, va, size, base, ram, answer)
}

/// A store of the low 1, 2, 4 or 8 bytes of a value.
#[unsafe(no_mangle)]
pub extern "C" fn a72_cluster_store(
    handle: &mut ClusterHandle,
    core: u64,
    va: u64,
    size: u64,
    value: u64,
    base: u64,
    ram: &mut [u8],
    answer: &mut Report,
) -> u64
    ensures { ClusterPromise (DecodedCall.Known (Call.Store va size value)) base ram.old
        handle.old.cluster.cores core result answer.old answer.new ram.new handle.new.cluster.cores }
{
    memory::store(handle.cluster(), core, va, size, value, base, ram, answer)
}

/// The instruction at `va`.
#[unsafe(no_mangle)]
pub extern "C" fn a72_cluster_fetch(
    handle: &mut ClusterHandle,
    core: u64,
    va: u64,
    base: u64,
    ram: &[u8],
    answer: &mut Report,
) -> u64
    ensures { ClusterPromise (DecodedCall.Known (Call.Fetch va)) base ram.now
        handle.old.cluster.cores core result answer.old answer.new ram.now handle.new.cluster.cores }
{
    memory::fetch(handle.cluster(), core, va, base, ram, answer)
}

/// A system operation: SYS op1, CRn, CRm, op2 with the register rt.
#[unsafe(no_mangle)]
pub extern "C" fn a72_cluster_system(
    handle: &mut ClusterHandle,
    core: u64,
    op1: u64,
    crn: u64,
    crm: u64,
    op2: u64,
    rt: u64,
    base: u64,
    ram: &mut [u8],
    answer: &mut Report,
) -> u64
    ensures { ClusterPromise (DecodedCall.Known (Call.System (encoding_of op1 crn crm op2 rt))) base ram.old
        handle.old.cluster.cores core result answer.old answer.new ram.new handle.new.cluster.cores }
{
    step::system(
        handle.cluster(),
        core,
        op1,
        crn,
        crm,
        op2,
        rt,
        base,
        ram,
        answer,
    )
}

/// A register write, by the register's key.
#[unsafe(no_mangle)]
pub extern "C" fn a72_cluster_register(
    handle: &mut ClusterHandle,
    core: u64,
    key: u64,
    value: u64,
) -> u64
    ensures { ClusterSetting (DecodedCall.Known (Call.Register (key_of key) value))
        handle.old.cluster.cores core result handle.new.cluster.cores }
{
    settings::register(handle.cluster(), core, key, value)
}

/// The present level, 0 to 3.
#[unsafe(no_mangle)]
pub extern "C" fn a72_cluster_level(handle: &mut ClusterHandle, core: u64, level: u64) -> u64
    ensures { ClusterSetting (DecodedCall.Known (Call.Level level))
        handle.old.cluster.cores core result handle.new.cluster.cores }
{
    settings::level(handle.cluster(), core, level)
}

/// The mark of unprivileged accesses, 0 or 1.
#[unsafe(no_mangle)]
pub extern "C" fn a72_cluster_mark(handle: &mut ClusterHandle, core: u64, mark: u64) -> u64
    ensures { ClusterSetting (mark_call mark) handle.old.cluster.cores core result handle.new.cluster.cores }
{
    settings::mark(handle.cluster(), core, mark)
}

/// A general register, X0 to X30; 31 takes nothing.
#[unsafe(no_mangle)]
pub extern "C" fn a72_cluster_general(
    handle: &mut ClusterHandle,
    core: u64,
    number: u64,
    value: u64,
) -> u64
    ensures { ClusterSetting (DecodedCall.Known (Call.General number value))
        handle.old.cluster.cores core result handle.new.cluster.cores }
{
    settings::general(handle.cluster(), core, number, value)
}

/// Abort entry, of an exception in four words.
#[unsafe(no_mangle)]
pub extern "C" fn a72_cluster_abort(
    handle: &mut ClusterHandle,
    core: u64,
    exception: &[u64; 4],
) -> u64
    ensures { ClusterSetting (abort_call (exception_at exception.now))
        handle.old.cluster.cores core result handle.new.cluster.cores }
{
    settings::abort(handle.cluster(), core, exception)
}

/// The call that eight words name: 0, and in five words its answer and the descriptors that it read; 64 where they name
/// none.
#[unsafe(no_mangle)]
pub extern "C" fn a72_cluster_step(
    op: &[u64; 8],
    handle: &mut ClusterHandle,
    core: u64,
    base: u64,
    ram: &mut [u8],
    answer: &mut [u64; 5],
) -> u64
    ensures { ClusterStep (call_of op.now) base ram.old
        handle.old.cluster.cores core result answer.old answer.new ram.new handle.new.cluster.cores }
{
    step::step(handle.cluster(), core, op, base, ram, answer)
}

/// How many of so many 4 KiB pages, from the page of `first` on, end at each status, at each permission byte, and
/// flat.
#[unsafe(no_mangle)]
pub extern "C" fn a72_cluster_census(
    handle: &mut ClusterHandle,
    core: u64,
    first: u64,
    pages: u64,
    base: u64,
    ram: &[u8],
    counts: &mut [u64; 129],
) -> u64
    ensures { ClusterCensus first pages base ram.now
        handle.old.cluster.cores core result counts.old counts.new handle.new.cluster.cores }
{
    inspect::census(handle.cluster(), core, first, pages, base, ram, counts)
}

/// Which two windows of a list share a physical page: 0 and, in `out`, 1 and the first two by their numbers, or three
/// zeros where no two do; 10 and, in `out`, window, page and status of the first page that faults; or 1, 2 or 9, and no
/// word is written.
#[unsafe(no_mangle)]
pub extern "C" fn a72_cluster_windows(
    handle: &mut ClusterHandle,
    core: u64,
    list: &[u8],
    base: u64,
    ram: &[u8],
    out: &mut [u64; 3],
) -> u64
    ensures { ClusterWindows list.now base ram.now
        handle.old.cluster.cores core result out.old out.new handle.new.cluster.cores }
{
    inspect::windows(handle.cluster(), core, list, base, ram, out)
}

/// Which bit of a descriptor, flipped in RAM, changes how an access of a kind (1 read, 2 write, 4 fetch) ends in the
/// regime's own view (0) or EL0's (1): 0 and, in `out`, 1, the first descriptor's address and its lowest bit, or three
/// zeros where no bit of RAM does; 64 where kind or view names nothing, 1 or 2, and no word is written. RAM is changed
/// while the call runs, and as it was when it returns.
#[unsafe(no_mangle)]
pub extern "C" fn a72_cluster_flip(
    handle: &mut ClusterHandle,
    core: u64,
    va: u64,
    kind: u64,
    user: u64,
    base: u64,
    ram: &mut [u8],
    out: &mut [u64; 3],
) -> u64
    ensures { ClusterFlip va kind user base ram.old
        handle.old.cluster.cores core result out.old out.new ram.new handle.new.cluster.cores }
{
    inspect::flip(handle.cluster(), core, va, kind, user, base, ram, out)
}

/// A core is copied out, with what it has pending: 0; or 8, and nothing is written.
#[unsafe(no_mangle)]
pub extern "C" fn a72_cluster_get(handle: &mut ClusterHandle, core: u64, out: &mut Handle) -> u64
    ensures number { result ≡ if_core core 0 8 }
    ensures core { out.new.core ≡ if_core core (core_in handle.old.cluster.cores core) out.old.core }
    ensures unchanged { handle.new.cluster ≡ handle.old.cluster }
{
    cores::get(handle.cluster(), core, out.core())
}

/// A core is copied in, with what it has pending: 0; or 8, and nothing is written.
#[unsafe(no_mangle)]
pub extern "C" fn a72_cluster_put(handle: &mut ClusterHandle, core: u64, from: &mut Handle) -> u64
    ensures number { result ≡ if_core core 0 8 }
    ensures cores { handle.new.cluster.cores ≡ put_in handle.old.cluster.cores core from.old.core }
    ensures unchanged { from.new.core ≡ from.old.core }
{
    cores::put(handle.cluster(), core, from.core())
}
