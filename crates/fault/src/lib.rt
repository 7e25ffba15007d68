#![tactic(auto)]
// The status of a fault, as the walk, the permission check or memory gives it. A second stage will add to it.
ghost use Rattle.std.specs.Prelude.{◌≡◌};
ghost use Rattle.fault.specs.First.{first};

/// A fault; `fsc` is its `DFSC` or `IFSC`.
#[derive(Clone, Copy, PartialEq, Eq)]
pub struct Fault {
    pub fsc: u8,
}

/// A fault of stage 1.
pub fn first(fsc: u8) -> Fault
    ensures { result ≡ first fsc }
{
    Fault { fsc }
}
