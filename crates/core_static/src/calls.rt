// The calls.
ghost use Rattle.std.specs.Prelude.{◌≡◌};
ghost use Rattle.cpu.specs.declared.call.Call.TheVariants as Call;
ghost use Rattle.call_words.specs.declared.op.DecodedCall.TheVariants as DecodedCall;
ghost use Rattle.call_words.specs.Ops.{key_of, kind_of, encoding_of, exception_at};
ghost use Rattle.call_words.specs.Ops.{abort_call, mark_call, call_of, translate_call};
ghost use Rattle.call_words.specs.Walk.{walk_code, walk_words};
ghost use Rattle.core_calls.specs.Promise.{Promise, Setting, StepPromise, CensusPromise, WindowsPromise, FlipPromise};

use call_words::reply::Report;
use core_calls::{inspect, memory, settings, step};
use handle::Handle;

/// The translation of `va` for an access of a kind: 1 read, 2 write, 4 fetch.
#[unsafe(no_mangle)]
pub extern "C" fn a72_translate(
    handle: &mut Handle,
    va: u64,
    kind: u64,
    answer: &mut Report,
    base: u64,
    ram: &[u8],
) -> u64
    ensures { Promise (translate_call (kind_of kind) va) base ram.now handle.old.core result
        answer.old answer.new ram.now handle.new.core }
{
    memory::translate(handle.core(), va, kind, answer, base, ram)
}

/// Where a data read of `va` goes.
#[unsafe(no_mangle)]
pub extern "C" fn a72_data_pa(
    handle: &mut Handle,
    va: u64,
    answer: &mut Report,
    base: u64,
    ram: &[u8],
) -> u64
    ensures { Promise (DecodedCall.Known (Call.DataPa va)) base ram.now handle.old.core result
        answer.old answer.new ram.now handle.new.core }
{
    memory::data_pa(handle.core(), va, answer, base, ram)
}

/// Where a fetch of `va` goes.
#[unsafe(no_mangle)]
pub extern "C" fn a72_fetch_pa(
    handle: &mut Handle,
    va: u64,
    answer: &mut Report,
    base: u64,
    ram: &[u8],
) -> u64
    ensures { Promise (DecodedCall.Known (Call.FetchPa va)) base ram.now handle.old.core result
        answer.old answer.new ram.now handle.new.core }
{
    memory::fetch_pa(handle.core(), va, answer, base, ram)
}

/// A load of 1, 2, 4 or 8 bytes.
#[unsafe(no_mangle)]
pub extern "C" fn a72_load(
    handle: &mut Handle,
    va: u64,
    size: u64,
    answer: &mut Report,
    base: u64,
    ram: &[u8],
) -> u64
    ensures { Promise (DecodedCall.Known (Call.Load va size)) base ram.now handle.old.core result
        answer.old answer.new ram.now handle.new.core }
{
    memory::load(handle.core(), va, size, answer, base, ram)
}

/// A store of the low 1, 2, 4 or 8 bytes of a value.
#[unsafe(no_mangle)]
pub extern "C" fn a72_store(
    handle: &mut Handle,
    va: u64,
    size: u64,
    value: u64,
    answer: &mut Report,
    base: u64,
    ram: &mut [u8],
) -> u64
    ensures { Promise (DecodedCall.Known (Call.Store va size value)) base ram.old handle.old.core result
        answer.old answer.new ram.new handle.new.core }
{
    memory::store(handle.core(), va, size, value, answer, base, ram)
}

/// The instruction at `va`.
#[unsafe(no_mangle)]
pub extern "C" fn a72_fetch(
    handle: &mut Handle,
    va: u64,
    answer: &mut Report,
    base: u64,
    ram: &[u8],
) -> u64
    ensures { Promise (DecodedCall.Known (Call.Fetch va)) base ram.now handle.old.core result
        answer.old answer.new ram.now handle.new.core }
{
    memory::fetch(handle.core(), va, answer, base, ram)
}

/// A system operation: SYS op1, CRn, CRm, op2 with the register rt.
#[unsafe(no_mangle)]
pub extern "C" fn a72_system(
    handle: &mut Handle,
    op1: u64,
    crn: u64,
    crm: u64,
    op2: u64,
    rt: u64,
    answer: &mut Report,
    base: u64,
    ram: &mut [u8],
) -> u64
    ensures { Promise (DecodedCall.Known (Call.System (encoding_of op1 crn crm op2 rt))) base ram.old
        handle.old.core result answer.old answer.new ram.new handle.new.core }
{
    step::system(handle.core(), op1, crn, crm, op2, rt, answer, base, ram)
}

/// A register write, by the register's key.
#[unsafe(no_mangle)]
pub extern "C" fn a72_register(handle: &mut Handle, key: u64, value: u64) -> u64
    ensures { Setting (DecodedCall.Known (Call.Register (key_of key) value)) handle.old.core result handle.new.core }
{
    settings::register(handle.core(), key, value)
}

/// The present level, 0 to 3.
#[unsafe(no_mangle)]
pub extern "C" fn a72_level(handle: &mut Handle, level: u64) -> u64
    ensures { Setting (DecodedCall.Known (Call.Level level)) handle.old.core result handle.new.core }
{
    settings::level(handle.core(), level)
}

/// The mark of unprivileged accesses, 0 or 1.
#[unsafe(no_mangle)]
pub extern "C" fn a72_mark(handle: &mut Handle, mark: u64) -> u64
    ensures { Setting (mark_call mark) handle.old.core result handle.new.core }
{
    settings::mark(handle.core(), mark)
}

/// A general register, X0 to X30; 31 takes nothing.
#[unsafe(no_mangle)]
pub extern "C" fn a72_general(handle: &mut Handle, number: u64, value: u64) -> u64
    ensures { Setting (DecodedCall.Known (Call.General number value)) handle.old.core result handle.new.core }
{
    settings::general(handle.core(), number, value)
}

/// Abort entry, of an exception in four words.
#[unsafe(no_mangle)]
pub extern "C" fn a72_abort(handle: &mut Handle, exception: &[u64; 4]) -> u64
    ensures { Setting (abort_call (exception_at exception.now)) handle.old.core result handle.new.core }
{
    settings::abort(handle.core(), exception)
}

/// The call that eight words name: 0, and in five words its answer and the descriptors that it read; 64 where they name
/// none.
#[unsafe(no_mangle)]
pub extern "C" fn a72_step(
    op: &[u64; 8],
    handle: &mut Handle,
    base: u64,
    ram: &mut [u8],
    answer: &mut [u64; 5],
) -> u64
    ensures { StepPromise (call_of op.now) base ram.old handle.old.core result
        answer.old answer.new ram.new handle.new.core }
{
    step::step(handle.core(), op, base, ram, answer)
}

/// How many of so many 4 KiB pages, from the page of `first` on, end at each status, at each permission byte, and
/// flat.
#[unsafe(no_mangle)]
pub extern "C" fn a72_census(
    handle: &mut Handle,
    first: u64,
    pages: u64,
    counts: &mut [u64; 129],
    base: u64,
    ram: &[u8],
) -> u64
    ensures promise { CensusPromise first pages base ram.now handle.old.core result counts.old counts.new }
    ensures unchanged { handle.new.core ≡ handle.old.core }
{
    inspect::census(handle.core(), first, pages, counts, base, ram)
}

/// Which two windows of a list share a physical page: 0 and, in `out`, 1 and the first two by their numbers, or three
/// zeros where no two do; 10 and, in `out`, window, page and status of the first page that faults; or 1, 2 or 9, and no
/// word is written.
#[unsafe(no_mangle)]
pub extern "C" fn a72_windows(
    handle: &mut Handle,
    list: &[u8],
    out: &mut [u64; 3],
    base: u64,
    ram: &[u8],
) -> u64
    ensures promise { WindowsPromise list.now base ram.now handle.old.core result out.old out.new }
    ensures unchanged { handle.new.core ≡ handle.old.core }
{
    inspect::windows(handle.core(), list, out, base, ram)
}

/// Which bit of a descriptor, flipped in RAM, changes how an access of a kind (1 read, 2 write, 4 fetch) ends in the
/// regime's own view (0) or EL0's (1): 0 and, in `out`, 1, the first descriptor's address and its lowest bit, or three
/// zeros where no bit of RAM does; 64 where kind or view names nothing, 1 or 2, and no word is written. RAM is changed
/// while the call runs, and as it was when it returns.
#[unsafe(no_mangle)]
pub extern "C" fn a72_flip(
    handle: &mut Handle,
    va: u64,
    kind: u64,
    user: u64,
    out: &mut [u64; 3],
    base: u64,
    ram: &mut [u8],
) -> u64
    ensures promise { FlipPromise va kind user base ram.old handle.old.core result out.old out.new ram.new }
    ensures unchanged { handle.new.core ≡ handle.old.core }
{
    inspect::flip(handle.core(), va, kind, user, out, base, ram)
}

/// One walk of an untagged address: 0 and the leaf, or 256 plus the fault's status, and in either case how many
/// descriptors it read; 64 for no regime, 2 for a window that passes 2^64, and no word is written.
#[unsafe(no_mangle)]
pub extern "C" fn a72_walk(
    words: &[u64; 6],
    number: u64,
    va: u64,
    out: &mut [u64; 6],
    base: u64,
    ram: &[u8],
) -> u64
    ensures { (result ≡ walk_code words.now number va base ram.now) ×
        (out.new ≡ walk_words words.now number va base ram.now out.old) }
{
    call_words::tables::walk_words(words, number, va, out, base, ram)
}
