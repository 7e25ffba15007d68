//! Pages and what is counted of them: a row for each, and what several come to.
ghost use Rattle.std.specs.Prelude.{◌≡◌, drop, length, take};
ghost use Rattle.reads_report.specs.Rows.{descriptors_in, operations_in};

use std::hash::{Hash, Hasher};
use sysreg::regs::Regime;

/// A page of 4 KiB: the level that an operation was made at, and of its first address the regime and the number, which
/// is the untagged address without its low twelve bits.
#[derive(Clone, Copy)]
pub struct Page {
    pub level: u8,
    pub regime: Regime,
    pub number: u64,
}

impl PartialEq for Page {
    ghost use Rattle.std.specs.Prelude.{nat_eq};
    ghost use Rattle.std.specs.Ordering.{eq_of_both, on};
    ghost use Rattle.std.specs.Cmp.Rules.{comparing};
    ghost use Rattle.std.proofs.Common.{rules};
    ghost use Rattle.sysreg.specs.Regs.{index_of};

    ghost eq = { eq_of_both (on (λ p. p.level) nat_eq)
        (eq_of_both (on (λ p. index_of p.regime) nat_eq) (on (λ p. p.number) nat_eq)) };

    ghost laws = { Prim.search (comparing, rules) };

    fn eq(&self, other: &Page) -> bool {
        self.level == other.level && self.regime == other.regime && self.number == other.number
    }
}

impl Eq for Page {
    ghost use Rattle.std.specs.Cmp.Rules.{comparing};
    ghost use Rattle.std.proofs.Common.{rules};

    ghost laws = { Prim.search (comparing, rules) };
}

// By number and level alone: few pages are in a row of several regimes.
impl Hash for Page {
    ghost use Rattle.std.specs.Prelude.{◌++◌};
    ghost use Rattle.std.specs.Hash as fed;
    ghost use Rattle.std.specs.Cmp.Rules.{hashing};
    ghost use Rattle.std.proofs.Common.{rules};

    ghost hash_input = { λ p. fed.u64 p.number ++ fed.u8 p.level };

    ghost respects_eq = { Prim.search (hashing, rules) };

    fn hash<H: Hasher>(&self, state: &mut H) {
        self.number.hash(state);
        self.level.hash(state);
    }
}

/// What is counted of a page, modulo 2^64: the operations whose walks read descriptors, and these.
#[derive(Clone, Copy)]
pub struct Row {
    pub page: Page,
    pub operations: u64,
    pub descriptors: u64,
}

/// So many pages, and what is counted of them.
#[derive(Clone, Copy)]
pub struct Sums {
    pub pages: u64,
    pub operations: u64,
    pub descriptors: u64,
}

impl Sums {
    /// Of some rows.
    pub fn of(rows: &[Row]) -> Self
        ensures pages { result.pages ≡ length rows.now }
        ensures operations { result.operations ≡ operations_in rows.now }
        ensures descriptors { result.descriptors ≡ descriptors_in rows.now }
    {
        let (mut operations, mut descriptors) = (0u64, 0u64);
        for row in rows {
            operations = operations.wrapping_add(row.operations);
            descriptors = descriptors.wrapping_add(row.descriptors);
        }
        Sums {
            pages: rows.len() as u64,
            operations,
            descriptors,
        }
    }
}

/// The rows, those with most descriptors first.
#[derive(Drop)]
pub struct Ranked {
    pub rows: Vec<Row>,
}

impl Ranked {
    /// The first rows, so many or all.
    pub fn first(&self, n: usize) -> &[Row]
        ensures { result.now ≡ take n self.now.rows.items }
    {
        let rows = self.rows.as_slice();
        match rows.split_at_checked(n) {
            Some((first, _)) => first,
            None => rows,
        }
    }

    /// What the others come to.
    pub fn others(&self, n: usize) -> Sums
        ensures pages { result.pages ≡ length (drop n self.now.rows.items) }
        ensures operations { result.operations ≡ operations_in (drop n self.now.rows.items) }
        ensures descriptors { result.descriptors ≡ descriptors_in (drop n self.now.rows.items) }
    {
        match self.rows.as_slice().split_at_checked(n) {
            Some((_, others)) => Sums::of(others),
            None => Sums::of(&[]),
        }
    }

    /// What all rows come to.
    pub fn all(&self) -> Sums
        ensures operations { result.operations ≡ operations_in self.now.rows.items }
        ensures descriptors { result.descriptors ≡ descriptors_in self.now.rows.items }
    {
        Sums::of(self.rows.as_slice())
    }
}
