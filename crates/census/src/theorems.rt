// What holds of every census. Each function computes nothing: its contract is the theorem.
ghost use Rattle.std.specs.Prelude.{◌≡◌, ℕ, ◌+◌, ◌*◌, ◌/◌, ◌<◌, Bool, true, false, is_some, Option};
ghost use Rattle.word.specs.Bits.{wrap};
ghost use Rattle.walk.specs.Regime.{stage1_on};
ghost use Rattle.walk.specs.Walk.{flat_of};
ghost use Rattle.sysreg.specs.declared.regs.Regime.{Regime};
ghost use Rattle.walk.specs.declared.regime.Bank.{Bank};
ghost use Rattle.census.specs.Count.{how_many, total, page_at, census_of, faults_with, has_rights, is_flat, NoStatus};
ghost use Rattle.census.specs.Count.{census_count, EachCensus};
ghost use Rattle.census.specs.Cases.{among, possible, WorkedPlaces, WorkedLevels};

// What each place of a census is the number of: the pages that a fresh walk ends at a status, those whose leaf has a
// permission byte, and those that are flat. It rules out a page that is counted under another place, or twice.
#[tactic(auto, using(crate::proofs::Laws::counts))]
pub fn meaning_of_counts()
    ensures status { EachCensus (λ count end pages. (status : ℕ) → status < 64
        → count status ≡ how_many (λ i. faults_with status (end i)) pages) }
    ensures rights { EachCensus (λ count end pages. (perms : ℕ) → perms < 64
        → count (64 + perms) ≡ how_many (λ i. has_rights perms (end i)) pages) }
    ensures flat { EachCensus (λ count end pages. count 128 ≡ how_many (λ i. is_flat (end i)) pages) }
{}

// All counts together are the number of pages, a census of two adjoining ranges is the sum, place by place, and the low
// twelve bits of the first address count for nothing.
pub fn sums_of_counts()
    ensures all_counted { (s : Bank) (r : Regime) (memory : ℕ → Option ℕ) (first pages : ℕ)
        → total (census_of s r memory first pages) ≡ pages }
    ensures ranges_join { (s : Bank) (r : Regime) (memory : ℕ → Option ℕ) (first n m next j : ℕ)
        → next ≡ wrap (first + n * 4096) → j < 129
        → census_count s r memory first (n + m) j
        ≡ census_count s r memory first n j + census_count s r memory next m j }
    ensures low_bits_dropped { (s : Bank) (r : Regime) (memory : ℕ → Option ℕ) (first other pages : ℕ)
        → first / 4096 ≡ other / 4096 → census_of s r memory first pages ≡ census_of s r memory other pages }
{}

// Which places stay 0: the statuses that no walk ends at, all but fourteen permission bytes, and with stage 1 off
// every place but that of flat pages, those that the manual's rule gives an address, and status 0x00, the others. With
// stage 1 on no page is flat.
#[tactic(auto, using(crate::proofs::Laws::none), unfolding(walk::specs::Walk::fresh_of))]
pub fn empty_places()
    ensures no_other_status { EachCensus (λ count end pages. (status : ℕ) → status < 64
        → NoStatus status → count status ≡ 0) }
    ensures no_other_rights { EachCensus (λ count end pages. (perms : ℕ) → perms < 64
        → among perms possible ≡ false → count (64 + perms) ≡ 0) }
    ensures off_two_places { (s : Bank) (r : Regime) (memory : ℕ → Option ℕ) (first pages : ℕ)
        → stage1_on s r ≡ false
        → census_count s r memory first pages 0 + census_count s r memory first pages 128 ≡ pages }
    ensures off_none_else { (s : Bank) (r : Regime) (memory : ℕ → Option ℕ) (first pages j : ℕ)
        → stage1_on s r ≡ false → 0 < j → j < 128 → census_count s r memory first pages j ≡ 0 }
    ensures off_flat { (s : Bank) (r : Regime) (memory : ℕ → Option ℕ) (first pages : ℕ)
        → stage1_on s r ≡ false → census_count s r memory first pages 128
        ≡ how_many (λ i. is_some (flat_of s.tcr r (page_at first i))) pages }
    ensures on_none_flat { (s : Bank) (r : Regime) (memory : ℕ → Option ℕ) (first pages : ℕ)
        → stage1_on s r ≡ true → census_count s r memory first pages 128 ≡ 0 }
{}

// Censuses of pages on both sides of each border, and one at each exception level, computed. They rule out a range that
// is untagged once in place of each page, and a level that counts by another level's tables.
pub fn worked_censuses()
    ensures places { WorkedPlaces }
    ensures levels { WorkedLevels }
{}
