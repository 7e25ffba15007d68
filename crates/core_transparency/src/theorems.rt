// What is proved of every list of calls: each function does nothing, and its contract is the theorem. `Made` says
// that a core was as after reset, and then calls changed it, each as its contract promises.
ghost use Rattle.core_transparency.specs.OnCore.{made_is_core};
ghost use Rattle.core_transparency.specs.OnCore.{faithful_on_core, faithful_step_on_core, counts_on_core};
ghost use Rattle.core_transparency.specs.OnCore.{windows_on_core, flip_on_core};
ghost use Rattle.core_transparency.specs.Counters.{hits_on_core, walks_on_core, sums_on_core};
ghost use Rattle.core_transparency.specs.Reads.{reads_on_core, step_reads_on_core};
ghost use Rattle.core_transparency.specs.Forms.{forms_of_at};
ghost use Rattle.core_transparency.specs.Whole.{call_keeps_whole, made_is_whole, made_is_saved};

/// Such a core is the core after the list. Rules out a call that promises one core and leaves another.
pub fn made_core()
    ensures hold { made_is_core }
{}

/// On such a core each further call is faithful: settled pages are answered as by the core without a cache, by
/// number and by words; a census counts, and windows and a flip are found, as on that core. Rules out a call whose own
/// fast path answers by an entry or a hint that an earlier call should have dropped.
pub fn every_call_on_core()
    ensures call { faithful_on_core }
    ensures step { faithful_step_on_core }
    ensures census { counts_on_core }
    ensures windows { windows_on_core }
    ensures flip { flip_on_core }
{}

/// The counters by level of such a core are the number of the list's translations made at each level that an entry
/// answered, that were walked; their sums are the Rust's two counters. Rules out a hit counted at another level.
pub fn counters_on_core()
    ensures hits { hits_on_core }
    ensures walks { walks_on_core }
    ensures sums { sums_on_core }
{}

/// What a call reports as read on such a core, with a number of a value or of a fault, is what `every_read` says of it
/// after the list: the descriptors of the walks that the plain model makes of its translations, and those of AT's own
/// walk; so is the fifth word of a step, which is 0 where the call is refused, Undefined or Unimplemented. Rules out a
/// boundary that reports 0 for every call, one that leaves in the report what an earlier call read, and one that adds
/// to it, in code and definition alike.
pub fn reads_on_core()
    ensures report { reads_on_core }
    ensures step { step_reads_on_core }
{}

/// What words hold of a core is all of it, after every list of calls: place 0 of the arrays by level, which has no
/// word, stays 0, and the core comes back out of its words whole. So it does where words were restored before.
/// Rules out a call that writes a part of which nothing is saved.
pub fn whole_core()
    ensures call { call_keeps_whole }
    ensures list { made_is_whole }
    ensures saved { made_is_saved }
{}

/// An AT asks for the regime, the view and the right that its name says, each part of its form by itself: the rows of
/// `levels_of_encodings` (system) name it by one word. Rules out an AT for a write that asks for a read's right, in
/// code and definition alike.
pub fn forms_of_translations()
    ensures form { forms_of_at }
{}
