// What is proved of four cores: each function does nothing, and its contract is the theorem. The lists begin at four
// fresh cores, hold calls of every kind on any number, refused ones too, and RAM at each call is any.
ghost use Rattle.cluster.specs.Laws.{EveryCallOfFour, eight_first, left_as_shared, local_tlbi, never_pending};
ghost use Rattle.cluster.specs.Laws.{CallerCleared, CallerSame, RefusedSame, OthersHear, OthersStay, CallerAlone};
ghost use Rattle.cluster.specs.EveryCore.{each_faithful, each_by_answers, each_same, each_invisible, each_shown};
ghost use Rattle.cluster.specs.EveryCore.{runs, runs_bare, each_bridge, each_modelled};
ghost use Rattle.cluster.specs.EveryCore.{one_ram, one_longer};
ghost use Rattle.cluster.specs.Worked.{told_settled, told_right, again_settled, again_by_cache};
ghost use Rattle.cluster.specs.Worked.{untold_stale, untold_unsettled, stored_told};
ghost use Rattle.cluster.specs.Rows.{form_rows, other_rows, crm_rows, sender_rows, number_rows, mark_rows};

/// A number above 3 is refused as 8, and nothing changes, whatever else the call would miss. Rules out a number that is
/// judged after the level or the window.
pub fn every_number()
    ensures eight { eight_first }
{}

/// Of a core with nothing pending, what a call leaves pending is read from the call and the core's state without a
/// cache: an Inner Shareable TLBI that is not refused shares what it names, and no other call shares anything. Rules
/// out a cluster that takes its own cache's word for what was broadcast, and a TLBI with CRm 7 that is handed on.
pub fn what_is_shared()
    ensures shared { left_as_shared }
    ensures local { local_tlbi }
{}

/// After every list no core has a mark. From any state a call that is not refused clears the caller's, and changes
/// nothing else of what the call makes of that core alone; one that is refused leaves all four, marks too. Rules out a
/// mark left standing, and a refused call that hands on.
pub fn marks()
    ensures never { never_pending }
    ensures cleared { EveryCallOfFour CallerCleared }
    ensures caller { EveryCallOfFour CallerSame }
    ensures refused { EveryCallOfFour RefusedSame }
{}

/// Each other core drops what is handed on, as by a TLBI of its own and once, and nothing else of it moves; where
/// nothing is, it stays as it is, and the call is that of a single core. Rules out a receiver whose level, registers or
/// last address moves, one that hears twice or not at all, and a caller that hears itself.
pub fn others()
    ensures hear { EveryCallOfFour OthersHear }
    ensures stay { EveryCallOfFour OthersStay }
    ensures alone { EveryCallOfFour CallerAlone }
{}

/// Of each core, whose history has its own calls and what the others share: in every call after every list each
/// translation of a settled page is answered as by the core without a cache; where all pages are settled so are the
/// reply and RAM; and where no table is changed without its TLBI, by this core or an Inner Shareable one by another, no
/// reply shows the cache. The four cores are what these machines' runs make of them. Rules out a stale answer after
/// another core's TLBI, and a promise about other machines than the cores of the code.
pub fn every_core()
    ensures faithful { each_faithful }
    ensures by_answers { each_by_answers }
    ensures same { each_same }
    ensures invisible { each_invisible }
    ensures shown { each_shown }
    ensures runs { runs }
    ensures bare { runs_bare }
{}

/// A core's registers, level, mark and whole cache, counters included, do in each call what its history says; and its
/// cache stands for the plain model of that history. Rules out a receiver that empties its hints only, and one that
/// counts an invalidation twice.
pub fn every_core_modelled()
    ensures bridge { each_bridge }
    ensures modelled { each_modelled }
{}

/// Where each call's RAM is what the call before left, whichever core made it, each call is faithful for its core; a
/// call makes a list one longer, and what it leaves is what is after that. Rules out a promise that holds only of RAM
/// chosen anew for each call.
pub fn one_ram()
    ensures faithful { one_ram }
    ensures longer { one_longer }
{}

/// A worked list: core 1 reads a page, its table changes, and core 0 carries out a TLBI of another page of the block.
/// By VAE1IS core 1's page is settled, and it answers by the new table, from its cache too; by VAE1 it answers by the
/// old one, and its page is not settled. The same where core 0 itself stores the new table. Rules out a premise that
/// nothing meets, or that all meet, and a store of one core that another does not see.
pub fn worked_cores()
    ensures settled { told_settled }
    ensures right { told_right }
    ensures again { again_settled }
    ensures by_cache { again_by_cache }
    ensures stale { untold_stale }
    ensures unsettled { untold_unsettled }
    ensures stored { stored_told }
{}

/// The counters of all four cores after a TLBI of each kind, Inner Shareable or not, and after one of each CRm; whose
/// reading of an operand is heard; which number is refused first; and what a core that is put in with a mark hands on,
/// and when. Rules out, in code and definition alike, a TLBI that two of three hear, that the caller counts twice, or
/// that is heard by another CRm than 3; a receiver's reading of it; a number judged later; and a mark that is lost.
pub fn cores_in_numbers()
    ensures forms { form_rows }
    ensures others { other_rows }
    ensures by_crm { crm_rows }
    ensures sender { sender_rows }
    ensures numbers { number_rows }
    ensures marks { mark_rows }
{}
