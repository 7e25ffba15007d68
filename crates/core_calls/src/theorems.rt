// What is proved of windows and of a flip on every core: each function does nothing, and its contract is the theorem.
ghost use Rattle.core_calls.specs.Windows.{windows_after, pages_as_stores, one_step};
ghost use Rattle.core_calls.specs.WindowsRows.{WindowsRows};
ghost use Rattle.core_calls.specs.Flip.{flip_after, flip_by_words, answers_as_translated, flip_is_a_step};
ghost use Rattle.core_calls.specs.FlipRows.{FlipRows};

/// After every list of calls windows are what the core without a cache finds, and each page is answered as it
/// translates for a privileged store there; in a list of calls they are a step that misses the same checks. Rules out
/// windows that ask the cache, and pages judged by EL0's rights or the mark.
pub fn every_windows()
    ensures after { windows_after }
    ensures pages { pages_as_stores }
    ensures step { one_step }
{}

/// The number and the words of windows, computed from the bytes of lists. Rules out, in code and definition alike, the
/// two numbers of a pair exchanged, a page in the place of its window, and words written where the list is refused.
pub fn windows_in_numbers()
    ensures rows { WindowsRows }
{}

/// After every list of calls a flip is what the core without a cache finds, by the kind and the view that words name,
/// and the answer that a bit may change is that core's to a translation in that view; in a list of calls it is a step
/// that misses the same checks. Rules out a flip that asks the cache, and an answer judged by the level's own view or
/// the mark. What is found is one for every kind and view (`flip::theorems::first_descriptor`).
pub fn every_flip()
    ensures after { flip_after }
    ensures words { flip_by_words }
    ensures answers { answers_as_translated }
    ensures step { flip_is_a_step }
{}

/// The number and the words of a flip, computed. Rules out, in code and definition alike, address and bit exchanged,
/// words written where the call is refused, another level's registers, and a check before words that name nothing.
pub fn flip_in_numbers()
    ensures rows { FlipRows }
{}
