// The checks 1 to 8 of docs/SCOPE.md, each call's from top to bottom; of several cores 8 comes before all.
#![tactic(auto, unfolding(crate::specs::Check::missed_of))]

ghost use Rattle.std.specs.Prelude.{if◌then◌else◌, ◌≡◌, not, ◌||◌, [], ◌∷◌, nat_lt, Ok, Some};
ghost use Rattle.word.specs.Ram.{width_of};
ghost use Rattle.word.specs.declared.ram.Width.{Width};
ghost use Rattle.cpu.specs.Check.{passes, overlong, kept, ram_rows, sized_rows, first_of, missed_of};
ghost use Rattle.cpu.specs.Check.{number_of, number_missed, core_of};
ghost use Rattle.cpu.specs.declared.call.Call.TheVariants as Call;

use crate::call::Call;
use sysreg::encoding;
use system::decode::Encoding;
use word::ram::Width;

/// What a call may miss; its number is the call's answer.
#[derive(Clone, Copy)]
pub enum Check {
    /// a level is at most 3
    Level = 1,
    /// the window ends at 2^64 or before
    Window,
    /// a size is 1, 2, 4 or 8
    Size,
    /// op1 and op2 are at most 7, CRn and CRm at most 15
    Encoding,
    /// the number of a general register is at most 31
    General,
    /// a key names a register
    Key,
    /// a census has at most 65,536 pages, and its range ends at 2^64 or before
    Pages,
    /// of several cores, a core's number is at most 3
    Core,
}

impl Check {
    /// Its number, 1 to 8.
    pub fn number(self) -> u8
        ensures { result ≡ number_of self }
    {
        self as u8
    }

    // An error where it is missed.
    #[inline(always)]
    fn unless(self, missed: bool) -> Result<(), Check>
        ensures { number_missed result ≡ (if missed then number_of self else 0) }
    {
        if missed { Err(self) } else { Ok(()) }
    }
}

/// The number of the check that a call misses, or 0.
pub fn number_missed<T: Copy>(checked: Result<T, Check>) -> u8
    ensures { result ≡ number_missed checked }
{
    match checked {
        Ok(_) => 0,
        Err(check) => check.number(),
    }
}

/// Whether a window of len bytes from base passes 2^64. Nearly every one ends at the last address or before it.
pub fn past_end(base: u64, len: u64) -> bool
    ensures { result ≡ passes base len }
{
    u64::MAX - len < base && u64::MAX - base + 1 < len
}

/// The place among four cores of the one that has a number.
pub fn core(n: u64) -> Result<usize, Check>
    ensures { result ≡ core_of n }
{
    if 3 < n {
        Err(Check::Core)
    } else {
        Ok(n as usize)
    }
}

// Whether a census has more than 65,536 pages, or its range passes 2^64.
fn is_overlong(first: u64, pages: u64) -> bool
    ensures { result ≡ overlong first pages }
{
    65536 < pages || 0x10_0000_0000_0000 - first / 4096 < pages
}

/// Setting the mark, abort entry. Each of these functions gives the first check that its calls miss.
pub fn any(level: u8) -> Result<(), Check>
    ensures { number_missed result ≡ first_of ((nat_lt 3 level, 1) ∷ []) }
{
    Check::Level.unless(3 < level)
}

/// Setting the level.
pub fn levels(level: u8, requested: u64) -> Result<(), Check>
    ensures { number_missed result ≡ first_of ((nat_lt 3 level || nat_lt 3 requested, 1) ∷ []) }
{
    Check::Level.unless(3 < level || 3 < requested)
}

/// Translations, fetch, windows and a flip: no other check is theirs.
pub fn with_ram(level: u8, base: u64, len: u64) -> Result<(), Check>
    ensures { number_missed result ≡ first_of (ram_rows level base len) }
{
    any(level)?;
    Check::Window.unless(past_end(base, len))
}

/// Load, store: and the width that the size is.
pub fn sized(level: u8, base: u64, len: u64, size: u64) -> Result<Width, Check>
    ensures number { number_missed result ≡ first_of (sized_rows level base len size) }
    ensures width { (w : Width) → result ≡ Ok w → width_of size ≡ Some w }
{
    with_ram(level, base, len).and(Width::of_size(size).ok_or(Check::Size))
}

/// System operation.
pub fn system(level: u8, base: u64, len: u64, e: Encoding) -> Result<(), Check>
    ensures { number_missed result ≡ missed_of level base len (Call.System e) }
{
    with_ram(level, base, len)?;
    Check::Encoding.unless(((7 < e.op1) | (7 < e.op2)) | ((15 < e.crn) | (15 < e.crm)))?;
    Check::General.unless(31 < e.rt)
}

/// Register write.
pub fn register(level: u8, key: u32) -> Result<(), Check>
    ensures { number_missed result ≡ first_of ((nat_lt 3 level, 1) ∷ (not (kept key), 6) ∷ []) }
{
    any(level)?;
    Check::Key.unless(encoding::named(key).is_none())
}

/// Setting a general register.
pub fn general(level: u8, number: u64) -> Result<(), Check>
    ensures { number_missed result ≡ first_of ((nat_lt 3 level, 1) ∷ (nat_lt 31 number, 5) ∷ []) }
{
    any(level)?;
    Check::General.unless(31 < number)
}

/// Census.
pub fn census(level: u8, base: u64, len: u64, first: u64, pages: u64) -> Result<(), Check>
    ensures { number_missed result ≡ missed_of level base len (Call.Census first pages) }
{
    with_ram(level, base, len)?;
    Check::Pages.unless(is_overlong(first, pages))
}

/// Any call.
#[inline(always)]
pub fn missed(level: u8, base: u64, len: u64, call: Call) -> Result<(), Check>
    ensures { number_missed result ≡ missed_of level base len call }
{
    match call {
        Call::Translate(_, _)
        | Call::DataPa(_)
        | Call::FetchPa(_)
        | Call::Fetch(_)
        | Call::Windows
        | Call::Flip(..) => with_ram(level, base, len),
        Call::Load(_, size) | Call::Store(_, size, _) => {
            sized(level, base, len, size).and(Ok(()))
        }
        Call::System(e) => system(level, base, len, e),
        Call::Register(key, _) => register(level, key),
        Call::Level(requested) => levels(level, requested),
        Call::Mark(_) | Call::Abort(_) => any(level),
        Call::General(number, _) => general(level, number),
        Call::Census(first, pages) => census(level, base, len, first, pages),
    }
}
