//! What holds of the audit's definitions: the function computes nothing, and its contract is the theorem.
ghost use Rattle.std.specs.Prelude.{◌≡◌, ℕ, List};
ghost use Rattle.word.specs.Ram.{word_at};
ghost use Rattle.tlb.specs.declared.access.Kind.{Kind};
ghost use Rattle.cpu.specs.Bare.{bare_of};
ghost use Rattle.cpu.specs.declared.Core.{Core};
ghost use Rattle.history.specs.Window.{window_of};
ghost use Rattle.transparency.specs.Claim.{uncached};
ghost use Rattle.walk_report.specs.Told.{told_of, walk_told};

/// What a walk made now is said to give is what the claim's core without a cache answers.
#[tactic(auto, using(crate::proofs::Laws::walk_as_claimed))]
pub fn walks_of_now()
    ensures { (c : Core) (base : ℕ) (ram : List ℕ) (k : Kind) (va : ℕ)
        → walk_told c (word_at base ram 8) k va ≡ told_of (uncached (bare_of c) (window_of base ram) k va) }
{}
