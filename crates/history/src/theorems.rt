// What is proved of every history: each function does nothing, and its contract is the theorem.
ghost use Rattle.history.specs.History.{EveryHistoryFaithful};
ghost use Rattle.history.specs.Instance.{real, fresh_plain};
ghost use Rattle.history.specs.Invisible.{Invisible};
ghost use Rattle.history.specs.Calls.{Machine, Replies};
ghost use Rattle.history.specs.World.{World, Laws};
ghost use Rattle.history.specs.Theorems.{every_origin, every_judgement, every_fault_row};
ghost use Rattle.history.specs.Theorems.{every_cache_modelled, every_answer_modelled, every_asid_current};
ghost use Rattle.history.specs.Theorems.{hits_by_level, walks_by_level, sums_as_rust, other_levels_stay};
ghost use Rattle.history.specs.Theorems.{settled_when_off, settled_by_steps, settled_by_asid, covered_as_dropped};
ghost use Rattle.history.specs.Theorems.{same_for_neighbours};
ghost use Rattle.history.specs.Faithful.{Says};
ghost use Rattle.history.specs.SeenFrom.{Sharing, SeenFromEach, RepliesFromEach, MadeFromEach};
ghost use Rattle.history.specs.Theorems.{uncached_is_fresh, uncached_is_checked};

/// The real registers and walk keep the laws that the theory of histories rests on: a register write that leaves
/// `shaping` as it was can change neither whether stage 1 is on nor the tags, and the addresses of one page have equal
/// walks. A walk that read the address below its page, or a `shaping` without a bit that `untag` reads, breaks them.
pub fn registers_and_walk()
    ensures laws { Laws real }
{}

/// After every history of steps and invalidations received, whatever RAM is at each step, a translation whose page is
/// settled is answered as the core without a cache answers it; where every page is, no answer shows the cache. Rules
/// out an invalidation that spares an entry or a hint, and a register write without its flush or retag.
pub fn every_history()
    ensures faithful { EveryHistoryFaithful real fresh_plain }
    ensures invisible { Invisible real fresh_plain }
{}

/// Without any premise, after every history: each answer comes from the walk of now or from an earlier walk of the page
/// that no invalidation since covers, the manual's permission check judges it on what that walk found, and its fault
/// has a status of the table. Rules out a hint that answers an access which its page does not allow, and a made-up
/// status.
pub fn every_answer()
    ensures origin { every_origin }
    ensures judged { every_judgement }
    ensures fault { every_fault_row }
{}

/// After every history the cache stands for the plain model of it, answers as the model does, and holds the ASID of the
/// registers. Rules out a core that walks each time and reports counters that it made up, and one that repeats old
/// hints.
pub fn every_cache()
    ensures modelled { every_cache_modelled }
    ensures answers { every_answer_modelled }
    ensures asid { every_asid_current }
{}

/// The counters of a level move by the translations that a history made at that level, modulo 2^64, those of other
/// levels stay, and the sums are the Rust's two counters. Rules out a hit counted twice, not at all, or at another
/// level.
pub fn every_count()
    ensures hits { hits_by_level }
    ensures walks { walks_by_level }
    ensures sums { sums_as_rust }
    ensures others { other_levels_stay }
{}

/// Ways to show that a page is settled: stage 1 is off, the premise holds step by step, or the history leaves the page
/// to the ASID of now. An invalidation covers the walks whose lines the plain model drops. Rules out a premise that
/// asks for more than the walks which could still be in the cache, and a covering that is narrower than the
/// invalidation.
pub fn settled_pages()
    ensures off { settled_when_off }
    ensures steps { settled_by_steps }
    ensures asid { settled_by_asid }
    ensures covered { covered_as_dropped }
{}

/// What runs under other ASIDs does not bend a page's translation: two histories that leave the page to one ASID give
/// one answer. Rules out an entry that answers under an ASID which is not its own.
pub fn neighbours()
    ensures answer { same_for_neighbours }
{}

/// The core without a cache answers by the fresh answer that AT and the page census go by, and by the manual's
/// permission check on the walk of now. Rules out a reference that judges otherwise than AT does.
pub fn without_cache()
    ensures fresh { uncached_is_fresh }
    ensures checked { uncached_is_checked }
{}

/// A machine of the theory, any: the world that it is in, what its calls share with other cores, what they reply,
/// and how they make that from the answers to their translations.
pub trait AnyMachine {
    ghost world: { World };

    ghost machine: { Machine world };

    ghost sharing: { Sharing world machine };

    ghost replies: { Replies world machine };

    ghost says: { Says world machine replies };
}

/// Of every machine: one of several such cores is a machine of its own, where the others hear what each call shares and
/// its mark is cleared. Its history has its own calls, its own Inner Shareable invalidations among them, and of each
/// other core's call what that shares, once; and its replies are made from its answers, where the machine's are. Rules
/// out a core whose own Inner Shareable invalidation is told as none, and a share that is told to its sender too.
pub fn several_cores<M: AnyMachine>()
    ensures seen { SeenFromEach M.world M.machine M.sharing }
    ensures replies { RepliesFromEach M.world M.machine M.sharing M.replies }
    ensures made { MadeFromEach M.world M.machine M.sharing M.replies M.says }
{}
