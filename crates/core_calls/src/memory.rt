// Translations, loads, stores and fetches. Each gives a number, and in `ans` the address or value, or the address
// of a data abort, and the descriptors that were read.
ghost use Rattle.std.specs.Prelude.{◌≡◌};
ghost use Rattle.cpu.specs.declared.call.Call.TheVariants as Call;
ghost use Rattle.call_words.specs.declared.op.DecodedCall.TheVariants as DecodedCall;
ghost use Rattle.call_words.specs.Ops.{kind_of, translate_call};
ghost use Rattle.core_calls.specs.Promise.{Promise};

use call_words::reply::Report;
use cpu::Core;

/// The translation of `va` for an access of a kind: 1 read, 2 write, 4 fetch.
#[inline(always)]
pub fn translate(
    core: &mut Core,
    va: u64,
    kind: u64,
    ans: &mut Report,
    base: u64,
    ram: &[u8],
) -> u64
    ensures { Promise (translate_call (kind_of kind) va) base ram.now core.old result
        ans.old ans.new ram.now core.new }
{
    quick::translation::translate(core, va, kind, ans, base, ram)
}

/// Where a data read of `va` goes.
#[inline(always)]
pub fn data_pa(core: &mut Core, va: u64, ans: &mut Report, base: u64, ram: &[u8]) -> u64
    ensures { Promise (DecodedCall.Known (Call.DataPa va)) base ram.now core.old result
        ans.old ans.new ram.now core.new }
{
    quick::translation::data_pa(core, va, ans, base, ram)
}

/// Where a fetch of `va` goes.
#[inline(always)]
pub fn fetch_pa(core: &mut Core, va: u64, ans: &mut Report, base: u64, ram: &[u8]) -> u64
    ensures { Promise (DecodedCall.Known (Call.FetchPa va)) base ram.now core.old result
        ans.old ans.new ram.now core.new }
{
    quick::fetch::fetch_pa(core, va, ans, base, ram)
}

/// A load of 1, 2, 4 or 8 bytes.
#[inline(always)]
pub fn load(core: &mut Core, va: u64, size: u64, ans: &mut Report, base: u64, ram: &[u8]) -> u64
    ensures { Promise (DecodedCall.Known (Call.Load va size)) base ram.now core.old result
        ans.old ans.new ram.now core.new }
{
    quick::load::load(core, va, size, ans, base, ram)
}

/// A store of the low 1, 2, 4 or 8 bytes of a value.
#[inline(always)]
pub fn store(
    core: &mut Core,
    va: u64,
    size: u64,
    value: u64,
    ans: &mut Report,
    base: u64,
    ram: &mut [u8],
) -> u64
    ensures { Promise (DecodedCall.Known (Call.Store va size value)) base ram.old core.old result
        ans.old ans.new ram.new core.new }
{
    quick::store::store(core, va, size, value, ans, base, ram)
}

/// The instruction at `va`.
#[inline(always)]
pub fn fetch(core: &mut Core, va: u64, ans: &mut Report, base: u64, ram: &[u8]) -> u64
    ensures { Promise (DecodedCall.Known (Call.Fetch va)) base ram.now core.old result
        ans.old ans.new ram.now core.new }
{
    quick::fetch::fetch(core, va, ans, base, ram)
}
