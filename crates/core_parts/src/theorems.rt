// What holds of what is set and read. Each function computes nothing: its contract is the theorem.
ghost use Rattle.std.specs.Prelude.{ℕ};
ghost use Rattle.cpu.specs.declared.Core.{Core};
ghost use Rattle.core_parts.specs.Accesses.{SameAccesses};
ghost use Rattle.core_parts.specs.Put.{with_pc, with_flags};
ghost use Rattle.core_parts.specs.Numbers.{PstateSet, PstateRead, PendingNumbers, EntryNumbers, Answers};
ghost use Rattle.core_parts.specs.Set.{general_set, general_alone, general_none, broadcast_arrives};

/// A general register is read as it was set, and no other one moves; 31 and above take nothing and read as zero. It
/// rules out a write that goes to the next register, and a zero register that keeps a value.
pub fn set_and_read()
    ensures there { general_set }
    ensures alone { general_alone }
    ensures none { general_none }
{}

/// The two words of what is pending on one core name that very broadcast to another. It rules out a page that
/// arrives as an ASID.
pub fn broadcast()
    ensures { broadcast_arrives }
{}

/// What is set and read, in numbers: the bits of PSTATE that a word sets, and the word that is read of it; what is
/// pending, an entry and the hints by their words; the answers. It rules out a D that no word sets, and two words of
/// an entry that change places.
pub fn parts_as_words()
    ensures pstate_set { (c : Core) → PstateSet c }
    ensures pstate_read { (c : Core) → PstateRead c }
    ensures pending { (page value : ℕ) → PendingNumbers page value }
    ensures entries { EntryNumbers }
    ensures answers { (value : ℕ) → Answers value }
{}

/// The PC and PSTATE that are set decide of no access: each answers, and leaves RAM and the cache, as it would have
/// before. It rules out a PSTATE whose word sets the level or the mark.
pub fn accesses_after_setting()
    ensures pc { (c : Core) (pc : ℕ) → SameAccesses c (with_pc c pc) }
    ensures pstate { (c : Core) (psr : ℕ) → SameAccesses c (with_flags c psr) }
{}
