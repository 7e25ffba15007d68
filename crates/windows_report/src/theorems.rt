//! What holds of every window. The function computes nothing: its contract is the theorem.
ghost use Rattle.windows_report.specs.Pages.{as_translated};

/// The pages of a window that the library takes are answered as it translates them. It rules out rows of other addresses.
pub fn answers_are_translated()
    ensures { as_translated }
{}
