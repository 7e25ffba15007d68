//! What holds of the counting: each function computes nothing, and its contract is the theorem.
ghost use Rattle.std.specs.Prelude.{◌≡◌, ℕ, ◌+◌, ◌%◌, ◌^◌, List, drop, take, true};
ghost use Rattle.reads_report.specs.Counting.{Counts};
ghost use Rattle.reads_report.specs.Named.{in_its_regime};
ghost use Rattle.reads_report.specs.Rows.{descriptors_in, operations_in, same};
ghost use Rattle.reads_report.specs.declared.rows.{Page.Page, Row.Row};

/// An operation is counted once, with all that it read, at its page and its level alone.
pub fn counting_of_operations()
    ensures { (p : Page) (n : ℕ) (rows : List Row) → Counts p n rows }
{}

/// Two are one page just where they are equal in all that a page has.
#[tactic(auto, using(crate::proofs::Same::is_page, crate::proofs::Same::page_itself))]
pub fn pages_of_operations()
    ensures equal { (p q : Page) → same p q ≡ true → p ≡ q }
    ensures itself { (p : Page) → same p p ≡ true }
{}

/// The first rows and the others are all.
#[tactic(auto, using(crate::proofs::Laws::first_and_others))]
pub fn sums_of_rows()
    ensures operations { (rows : List Row) (n : ℕ)
        → (operations_in (take n rows) + operations_in (drop n rows)) % 2 ^ 64 ≡ operations_in rows }
    ensures descriptors { (rows : List Row) (n : ℕ)
        → (descriptors_in (take n rows) + descriptors_in (drop n rows)) % 2 ^ 64 ≡ descriptors_in rows }
{}

/// An AT is counted in the regime that it names, whatever the level's own.
#[tactic(auto, using(crate::proofs::Laws::at_regime))]
pub fn regimes_of_operations()
    ensures { in_its_regime }
{}
