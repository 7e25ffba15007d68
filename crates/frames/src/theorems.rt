// What holds of the frames of every total. The function computes nothing: its contract is the theorem.
ghost use Rattle.std.specs.Prelude.{◌≡◌, ℕ, ◌+◌, ◌*◌, ◌/◌, ◌≤◌, ◌<◌, Some};
ghost use Rattle.frames.specs.declared.Rate.{Rate};
ghost use Rattle.frames.specs.Frames.{cycles_a_second, rate_of, parts_of, frame_of, whole_of, rest_of, rate_named};
ghost use Rattle.frames.specs.Worked.{WorkedTotals};

// A total's whole frames and rest are by the rate itself, and no other two numbers: the frames are as many as the total
// has room for, the rest is exact and less than a frame, and a larger total has no fewer frames. It rules out a
// constant that fits the code and not the rate, a rest that is rounded, and a wrap at large totals.
pub fn frames_of_totals()
    ensures by_rate { (r : Rate) → frame_of r * rate_of r ≡ parts_of r * cycles_a_second }
    ensures whole_by_rate { (r : Rate) (total : ℕ) → whole_of r total ≡ total * rate_of r / cycles_a_second }
    ensures exact { (r : Rate) (total : ℕ) → total * parts_of r ≡ whole_of r total * frame_of r + rest_of r total }
    ensures below { (r : Rate) (total : ℕ) → rest_of r total < frame_of r }
    ensures only { (r : Rate) (total whole rest : ℕ) → total * parts_of r ≡ whole * frame_of r + rest
        → rest < frame_of r → (whole ≡ whole_of r total) × (rest ≡ rest_of r total) }
    ensures grows { (r : Rate) (a b : ℕ) → a ≤ b → whole_of r a ≤ whole_of r b }
    ensures named { (r : Rate) → rate_named (rate_of r) ≡ Some r }
    ensures named_only { (n : ℕ) (r : Rate) → rate_named n ≡ Some r → n ≡ rate_of r }
    ensures worked { WorkedTotals }
{}
