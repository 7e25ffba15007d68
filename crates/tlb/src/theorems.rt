// What holds of every cache. Each function computes nothing: its contract is the theorem.
ghost use Rattle.std.specs.Prelude.{◌≡◌, ℕ, ◌+◌, ◌%◌, ◌^◌, ◌≤◌, true, false, List, length, Some, None, ◌≢◌};
ghost use Rattle.tlb.specs.Tlb.{hit_counted, walk_counted, fresh, get_of, flush_of, invalidate_of, retag_of};
ghost use Rattle.tlb.specs.Tlb.{broadcast_of};
ghost use Rattle.tlb.specs.Runs.{How, how_counted, how_work, how_translated, how_fetched, rust_counted, sums, Op, Fair};
ghost use Rattle.tlb.specs.Runs.{run, model_run};
ghost use Rattle.tlb.specs.Live.{Each, counters_of, live, WellFormed, LeafLevel, Follows};
ghost use Rattle.tlb.specs.Model.{Access, Counters, Model, empty_model, one_hit, one_walk, translate, fetch};
ghost use Rattle.tlb.specs.Model.{invalidate, retag, broadcast};
ghost use Rattle.tlb.specs.Translate.{tag_in, hint_in, translation_in, tlb_after, fetch_in, fetched_in, work_in};
ghost use Rattle.tlb.specs.Translate.{fetch_work_in};
ghost use Rattle.tlb.specs.Worked.{WorkedRun, WorkedAtLevels, WorkedSlots, WorkedCovers, WorkedRights, WorkedFetches};
ghost use Rattle.tlb.specs.Worked.{WorkedFlat, WorkedPending};
ghost use Rattle.tlb.specs.declared.{Tlb.Tlb, entry.Entry.Entry, work.Work.Work};
ghost use Rattle.tlb.specs.declared.Inval.{Inval};
ghost use Rattle.tlb.specs.declared.Inval.TheVariants.{All};

// Each operation does to a well-formed cache what it does to the plain model: the same answer, the same counters, the
// same entries and hints, the same pending invalidation. It rules out a cache that keeps a hint past an invalidation,
// that drops one 4 KiB entry of a larger block, or that reports counters of its own.
pub fn refinement_of_the_model()
    ensures new { live fresh ≡ empty_model }
    ensures translation { (a : Access) (t : Tlb) → WellFormed t → LeafLevel a.walk → a.privilege.level ≤ 3
        → Follows (translation_in a t) (translate a (live t)) }
    ensures fetch { (a : Access) (t : Tlb) → WellFormed t → LeafLevel a.walk → a.privilege.level ≤ 3
        → Follows (fetch_in a t) (fetch a (live t)) }
    ensures flush { (t : Tlb) → WellFormed t → live (flush_of t) ≡ invalidate All (live t) }
    ensures invalidation { (t : Tlb) → WellFormed t → (what : Inval)
        → live (invalidate_of t what) ≡ invalidate what (live t) }
    ensures retag { (t : Tlb) → WellFormed t → (asid : ℕ) → live (retag_of t asid) ≡ retag asid (live t) }
    ensures broadcast { (t : Tlb) (what : Inval) → live (broadcast_of t what) ≡ broadcast what (live t) }
{}

// A new cache is well-formed, and each operation leaves it so, over every generation and its wrap.
pub fn caches_stay_well_formed()
    ensures new { WellFormed fresh }
    ensures translation { (a : Access) (t : Tlb) → WellFormed t → LeafLevel a.walk → a.privilege.level ≤ 3
        → WellFormed (tlb_after a t) }
    ensures fetch { (a : Access) (t : Tlb) → WellFormed t → LeafLevel a.walk → a.privilege.level ≤ 3
        → WellFormed (fetched_in a t) }
    ensures invalidation { (t : Tlb) → WellFormed t → (what : Inval) → WellFormed (invalidate_of t what) }
    ensures retag { (t : Tlb) → WellFormed t → (asid : ℕ) → WellFormed (retag_of t asid) }
    ensures broadcast { (t : Tlb) (what : Inval) → WellFormed t → WellFormed (broadcast_of t what) }
{}

// Every list of operations on a new cache shows what the plain model shows: answers, counters, what is pending.
pub fn runs_of_operations()
    ensures same_as_the_model { (os : List Op) → Each Fair os → run os fresh ≡ model_run os empty_model }
{}

// Which counters a translation moves: those of its own level alone, by how it was answered and by nothing else. The
// mark of an unprivileged access lowers no level, and the sums of the four levels move as one pair of counters would.
pub fn counters_of_translations()
    ensures translation { (a : Access) (m : Model)
        → (translate a m).after.counts ≡ how_counted (how_translated a m) a.privilege.level m.counts }
    ensures fetch { (a : Access) (m : Model)
        → (fetch a m).after.counts ≡ how_counted (how_fetched a m) a.privilege.level m.counts }
    ensures other_levels_stay { (how : How) (level : ℕ) (k : Counters) (l : ℕ) → l ≢ level
        → ((how_counted how level k).hits l ≡ k.hits l) × ((how_counted how level k).walks l ≡ k.walks l) }
    ensures mark_lowers_no_level { (a b : Access) (m : Model) → a.privilege.level ≡ b.privilege.level
        → how_translated a m ≡ how_translated b m → (translate a m).after.counts ≡ (translate b m).after.counts }
    ensures sums { (how : How) (level : ℕ) (k : Counters) → level ≤ 3
        → sums (how_counted how level k) ≡ rust_counted how (sums k) }
    ensures hit { (t : Tlb) → length t.levels ≡ 4 → (level : ℕ) → level ≤ 3
        → counters_of (hit_counted level t) ≡ one_hit level (counters_of t) }
    ensures walk { (t : Tlb) → length t.levels ≡ 4 → (level : ℕ) → level ≤ 3
        → counters_of (walk_counted level t) ≡ one_walk level (counters_of t) }
{}

// What a translation reads: by how the plain model answers it, the descriptors of its walk where it is walked, and
// nothing by a hint, by an entry, or with stage 1 off. It rules out an entry hit that reports its walk's number again,
// a walk that reports nothing, and a walk that is made where a hint or an entry serves.
pub fn work_of_translations()
    ensures translation { (a : Access) (t : Tlb) → WellFormed t → a.privilege.level ≤ 3 → (w : Work)
        → work_in a t w ≡ how_work (how_translated a (live t)) a.reads w }
    ensures fetch { (a : Access) (t : Tlb) → WellFormed t → a.privilege.level ≤ 3 → (w : Work)
        → fetch_work_in a t w ≡ how_work (how_fetched a (live t)) a.reads w }
    // said of an answer at hand, without the plain model
    ensures at_hand { (a : Access) (t : Tlb) (w : Work)
        → (a.on ≡ false → work_in a t w ≡ w)
        × ((pa : ℕ) → hint_in a.privilege a.va a.kind t ≡ Some pa → work_in a t w ≡ w)
        × ((e : Entry) → get_of t (tag_in a) ≡ Some e → work_in a t w ≡ w) }
    ensures walked { (a : Access) (t : Tlb) (w : Work) → a.on ≡ true → hint_in a.privilege a.va a.kind t ≡ None
        → get_of t (tag_in a) ≡ None → (work_in a t w).reads ≡ (w.reads + a.reads) % 2 ^ 64 }
{}

// Worked runs, the same rows in numbers of the cache and of the plain model: a 2 MiB block and its invalidations,
// accesses at several levels, which pages share a slot or a hint's place, what a Page and an Asid cover, which right
// each access needs, the fetch hint, addresses with stage 1 off, and what is pending. They rule out hints that outlive
// an invalidation, and a slot, a place, a span, a mask or a right of other bits, a mark that counts for a fetch, a flat
// fault that drops a hint, and a broadcast that forgets an earlier one, in code, definition and plain model alike.
pub fn worked_runs()
    ensures block { WorkedRun }
    ensures levels { WorkedAtLevels }
    ensures places { WorkedSlots }
    ensures covers { WorkedCovers }
    ensures rights { WorkedRights }
    ensures fetches { WorkedFetches }
    ensures flat { WorkedFlat }
    ensures pending { WorkedPending }
{}
