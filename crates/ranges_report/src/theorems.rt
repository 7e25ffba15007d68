// What holds of every list of ranges. The function computes nothing: its contract is the theorem.
ghost use Rattle.std.specs.Prelude.{◌≡◌, ℕ, ◌≤◌, ◌<◌, true, List, Option};
ghost use Rattle.walk.specs.Walk.{fresh_of};
ghost use Rattle.walk.specs.Regime.{stage1_on, untagged};
ghost use Rattle.walk.specs.declared.regime.Bank.{Bank};
ghost use Rattle.sysreg.specs.declared.regs.Regime.{Regime};
ghost use Rattle.ranges_report.specs.Place.{place_at, fresh_place, map_at, Maps};
ghost use Rattle.ranges_report.specs.declared.map.Mapped.{Mapped};

// Of an address, tag and all, whose untagged one was asked for, the list says what a fresh answer with stage 1 on
// does. It rules out a list of tagged addresses.
pub fn fresh_answers_by_ranges()
    ensures { (s : Bank) (r : Regime) (memory : ℕ → Option ℕ) (from end : ℕ) (l : List Mapped)
        → Maps (place_at s r memory) from end l → stage1_on s r ≡ true
        → (va : ℕ) → from ≤ untagged s.tcr r va → untagged s.tcr r va < end
        → fresh_place (fresh_of s r va memory) ≡ map_at l (untagged s.tcr r va) }
{}
