// What holds of every descriptor. The function computes nothing: its contract is the theorem.
ghost use Rattle.walk_report.specs.Bits.{named_as_read};

/// A bit of a descriptor has the name under which the walk reads it. It rules out two names exchanged.
pub fn names_of_bits()
    ensures { named_as_read }
{}
