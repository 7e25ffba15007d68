// What is proved of every list of calls: each function does nothing, and its contract is the theorem. The lists begin
// at the fresh core, hold calls of every kind, refused ones too, and RAM at each step is any.
ghost use Rattle.cpu.specs.Core.{fresh_core};
ghost use Rattle.history.specs.Calls.{Bridge, EveryCallFaithful, RepliesByAnswers, SameReplies, InvisibleCalls};
ghost use Rattle.history.specs.Instance.{real};
ghost use Rattle.transparency.specs.Claim.{every_list, steps_are_calls};
ghost use Rattle.transparency.specs.Replies.{every_step_replies, parts_follow, parts_end};
ghost use Rattle.transparency.specs.Says.{answered_step};
ghost use Rattle.transparency.specs.Premise.{same_premise};
ghost use Rattle.transparency.specs.Machine.{machine};
ghost use Rattle.transparency.specs.Events.{tlbi_event};
ghost use Rattle.transparency.specs.Instance.{replies};
ghost use Rattle.transparency.specs.Beside.{EveryList, AfterEveryList, EveryCall, AfterEveryRun};
ghost use Rattle.transparency.specs.Beside.{two_cores, at_walks, at_after, refused_bare, refused_core, refused_after};
ghost use Rattle.transparency.specs.Beside.{abort_leaves, level_leaves, mark_leaves, general_leaves, register_leaves};
ghost use Rattle.transparency.specs.Faithful.{every_list_shown, faithful_step};
ghost use Rattle.transparency.specs.Direct.{translate_after, data_pa_after, fetch_pa_after};
ghost use Rattle.transparency.specs.Direct.{access_after, load_after, store_after, fetch_after, zero_after};
ghost use Rattle.transparency.specs.Looks.{looking_calls, look_reply, look_skipped};
ghost use Rattle.transparency.specs.Census.{census_after, census_faults, rights_allow, flat_allows};
ghost use Rattle.transparency.specs.Judged.{every_call_judged, every_row};
ghost use Rattle.transparency.specs.Faults.{every_replied_fault};
ghost use Rattle.transparency.specs.Worked.{tidied_settled, by_cache, start_stale, start_unsettled, counted_by_level};
ghost use Rattle.transparency.specs.Worked.{claim_met, claim_unmet, worked_reads};
ghost use Rattle.transparency.specs.PremiseRows.{all_rows, page_rows, bit_rows, asid_rows, write_rows, equal_rows};
ghost use Rattle.transparency.specs.ModelCalls.{every_core_well, every_list_modelled, every_call_modelled};
ghost use Rattle.transparency.specs.Counted.{EveryTlbi, EveryWrite};
ghost use Rattle.transparency.specs.Counted.{translate_counted, data_pa_counted, fetch_pa_counted, fetch_counted};
ghost use Rattle.transparency.specs.Counted.{tlbi_counted, page_counted, tlbi_all_counted, asid_counted};
ghost use Rattle.transparency.specs.Counted.{shared_pending, own_pending};
ghost use Rattle.transparency.specs.Counted.{write_modelled, write_quiet, write_flushes, write_retags};
ghost use Rattle.transparency.specs.LevelCounts.{level_hits, level_walks, sums_list, call_level, others_stay};
ghost use Rattle.transparency.specs.LevelCounts.{own_hits, own_walks, sums_call, quiet_stays, refused_stays};
ghost use Rattle.transparency.specs.LevelCounts.{fetch_mark_free};
ghost use Rattle.transparency.specs.Reads.{call_reads, each_reads, at_reads, refused_reads, quiet_reads};
ghost use Rattle.transparency.specs.Bytes.{flat_after, load_byte_after, store_byte_after, store_others_after};
ghost use Rattle.transparency.specs.Bytes.{flat_load_after, flat_store_after, flat_others_after, zva_after};

/// The claim for every history, as `specs/Claim.antt` states it: at each step of every list of calls, whatever RAM is,
/// each translation of a settled page is answered as by the core without a cache, and where all pages of a step are
/// settled so are its reply and RAM. A step's reply is made from its answers. The steps of a list, each store of a
/// zeroing by itself, leave the core as its calls do; each store begins on the RAM that the one before left, and the
/// last replies, and leaves RAM, as the zeroing does. A page is settled just where the theory of histories has it so.
/// Rules out an entry or a hint that outlives its invalidation, a premise that asks for more than it says, and a
/// zeroing shown by other stores or other RAM than its own.
pub fn every_list()
    ensures faithful { every_list }
    ensures replies { every_step_replies }
    ensures answered { answered_step }
    ensures steps { steps_are_calls }
    ensures stores_follow { parts_follow }
    ensures stores_end { parts_end }
    ensures premise { same_premise }
{}

/// In every call after every list, each translation of a settled page is answered as by the core without a cache: those
/// inside a load, a store, a fetch and a zeroing too. RAM at each step can be shown of every list, so that no list is
/// left out. Rules out an entry or a hint that outlives its invalidation, a flush or a retag.
pub fn every_translation()
    ensures faithful { EveryCallFaithful real machine fresh_core }
    ensures shown { every_list_shown }
{}

/// Where all pages that a call translates are settled, its reply and RAM after it are those of the core without a
/// cache; where no table is changed without its TLBI, no reply of a whole list shows the cache. How many descriptors
/// were read is no part of a reply: the core without a cache walks each time, so it reads more (`every_read`). Rules
/// out an answer that is right inside and replied, or stored, wrong.
pub fn every_reply()
    ensures by_answers { RepliesByAnswers real machine replies }
    ensures same { SameReplies real machine replies fresh_core }
    ensures invisible { InvisibleCalls real machine replies fresh_core }
{}

/// What `step` gives is faithful, whatever list of calls left the core: this is the promise that entry points carry in
/// their contracts. Rules out a second way to make a call, on lent parts or on words, that the theorem does not reach.
pub fn every_promise()
    ensures faithful { faithful_step }
{}

/// A call does to registers, level, mark and the whole cache, counters and what is pending included, what its events
/// say; each TLBI that is not refused has its event. Rules out a core that ignores a TLBI, or makes one up.
pub fn every_event()
    ensures bridge { Bridge real machine }
    ensures tlbi { tlbi_event }
{}

/// After every list the core and the core without a cache have the same level, mark, registers, flags and PC. Rules out
/// a cache that reaches a register.
pub fn both_cores()
    ensures agree { two_cores }
{}

/// Of a settled page, the reply to each call that translates: the physical address, or the fault with its status and
/// address, by the core without a cache. Rules out a hint's address for another page, level or kind.
pub fn one_translation()
    ensures translate { AfterEveryRun translate_after }
    ensures data_pa { AfterEveryRun data_pa_after }
    ensures fetch_pa { AfterEveryRun fetch_pa_after }
{}

/// Of settled pages, one or two: where an access lies, what a load, a store and a fetch reply, the bytes that a store
/// leaves, and a zeroing's eight stores. Rules out a split access that takes its second page from the first.
pub fn one_access()
    ensures place { AfterEveryRun access_after }
    ensures load { AfterEveryRun load_after }
    ensures store { AfterEveryRun store_after }
    ensures fetch { AfterEveryRun fetch_after }
    ensures zero { AfterEveryRun zero_after }
{}

/// AT leaves in PAR_EL1 what a fresh walk gives, without any premise. Rules out an AT that asks the cache.
pub fn address_translation()
    ensures walks { at_walks }
    ensures after { at_after }
{}

/// A refused call, Undefined and Unimplemented included, leaves core, cache, counters and RAM, and its reply is the
/// refusal of the core without a cache. Rules out a check that comes after a change.
pub fn refused_calls()
    ensures bare { refused_bare }
    ensures core { refused_core }
    ensures after { refused_after }
    ensures counters { refused_stays }
{}

/// What an abort entry, a setting and a register write leave of the core without a cache. Rules out a reference that
/// changes along with a faulty core, such as a mark that clears the level.
pub fn parts_kept()
    ensures abort { abort_leaves }
    ensures level { level_leaves }
    ensures mark { mark_leaves }
    ensures general { general_leaves }
    ensures register { register_leaves }
{}

/// A call that only looks, a census, windows or a flip, replies what the core without a cache would, and a list leaves
/// what it leaves without it. Rules out one that fills the cache, or counts as a walk.
pub fn every_look()
    ensures which { looking_calls }
    ensures reply { look_reply }
    ensures skipped { look_skipped }
{}

/// A page census counts what the core without a cache would. Rules out a census that asks the cache.
pub fn every_census()
    ensures counts { census_after }
{}

/// What a count means: how many pages the core without a cache answers with that fault; that a page under a permission
/// byte is answered with an address just where the byte has the bit; that a flat page is answered with its flat
/// address. Rules out a page counted under another status, or twice.
pub fn census_meaning()
    ensures faults { census_faults }
    ensures rights { rights_allow }
    ensures flat { flat_allows }
{}

/// Without any premise: each translation of each call is judged by the manual's permission check on what a walk of its
/// page found, and each of its faults is a row of the table. Rules out a hint set by an access that needed less.
pub fn every_judgement()
    ensures judged { every_call_judged }
    ensures rows { every_row }
{}

/// A fault that a call replies is a row of the table and comes from one of its translations, with the address
/// translated; or it is 0x10, with the address of a byte of the access. Rules out a made-up status and the address of
/// another page.
pub fn every_fault()
    ensures row { every_replied_fault }
{}

/// A worked list: with a TLBI of another page of the same block the page is settled and a hint answers, rightly;
/// without it the core answers by the old table, and the page is not settled. Rules out a premise that nothing meets,
/// or that all meet; the same of the claim's own premise. And the counters by level after another list, under the mark
/// and at two levels, and the descriptors that each call of a third one reads.
pub fn worked_list()
    ensures settled { tidied_settled }
    ensures by_cache { by_cache }
    ensures stale { start_stale }
    ensures unsettled { start_unsettled }
    ensures met { claim_met }
    ensures unmet { claim_unmet }
    ensures by_level { counted_by_level }
    ensures reads { worked_reads }
{}

/// Which TLBI and which register write covers which earlier walk, in numbers: all walks; those of a page, and with a
/// block of the 2 MiB or 1 GiB about it, by bits 55:12; those of an ASID that are not global; all at a change of shape.
/// And which walks are equal: those under another descriptor too. Rules out a premise by which an invalidation covers
/// too little, so that it asks for more than the scope, or too much, and one that asks for the same descriptor.
pub fn premise_in_numbers()
    ensures all { all_rows }
    ensures pages { page_rows }
    ensures bits { bit_rows }
    ensures asids { asid_rows }
    ensures writes { write_rows }
    ensures equal { equal_rows }
{}

/// Every core that calls reach is well-formed: a level of 3 at most, the cache's invariant, the ASID of its registers;
/// and its cache stands for the plain model of the list. Rules out an entry of an old generation that comes alive at a
/// wrap.
pub fn every_core()
    ensures well { every_core_well }
    ensures modelled { every_list_modelled }
{}

/// Each call's answers, reply, RAM, counters, what it leaves pending and its cache are the plain model's. Rules out a
/// core that never invalidates, and one that walks each time and makes its counters up.
pub fn every_call()
    ensures modelled { every_call_modelled }
{}

/// A translation counts one hit where an entry answers it, one walk where it is walked, faulting or not, and nothing by
/// a hint or with stage 1 off. Rules out a hint counted as a hit, and a faulting walk that is not counted.
pub fn counted_translations()
    ensures translate { AfterEveryList translate_counted }
    ensures data_pa { AfterEveryList data_pa_counted }
    ensures fetch_pa { AfterEveryList fetch_pa_counted }
    ensures fetch { AfterEveryList fetch_counted }
{}

/// A TLBI that is not refused counts once what it names; an Inner Shareable form joins what is pending for other cores,
/// and any other leaves it. Rules out an invalidation counted twice, and a broadcast of every TLBI.
pub fn counted_invalidations()
    ensures once { EveryTlbi tlbi_counted }
    ensures page { EveryTlbi page_counted }
    ensures all { EveryTlbi tlbi_all_counted }
    ensures asid { EveryTlbi asid_counted }
    ensures shared { EveryTlbi shared_pending }
    ensures own { EveryTlbi own_pending }
{}

/// A register write flushes where `shaping` changed, retags where the ASID did, and does nothing to the cache where
/// neither did. Rules out a flush or a retag forgotten, and one that is counted twice.
pub fn counted_writes()
    ensures modelled { EveryWrite write_modelled }
    ensures quiet { EveryWrite write_quiet }
    ensures flushes { EveryWrite write_flushes }
    ensures retags { EveryWrite write_retags }
{}

/// The counters of each level are the number, modulo 2^64, of the translations made at it that an entry answered, that
/// were walked, and their sums are the Rust's two counters. Rules out a count at the level that the mark pretends.
pub fn level_counters()
    ensures hits { EveryList level_hits }
    ensures walks { EveryList level_walks }
    ensures sums { EveryList sums_list }
{}

/// A call moves the counters of its own level alone, by its own translations; one that translates nothing moves none;
/// and the mark does not count. Rules out a count at another level, and one for AT, a census or a register write.
pub fn counter_moves()
    ensures level { EveryCall call_level }
    ensures others { EveryCall others_stay }
    ensures hits { EveryCall own_hits }
    ensures walks { EveryCall own_walks }
    ensures sums { EveryCall sums_call }
    ensures quiet { quiet_stays }
    ensures mark { fetch_mark_free }
{}

/// After every list, the descriptors that a call reads are those of its translations: where the plain model walks, as
/// many as the walk fetches on the registers and RAM at its step, whether it faults or not; where a hint, a line or the
/// address alone answers, none. AT reads what its own walk does, whatever the cache holds; a refused call, and any
/// other that translates nothing, none. Rules out a core that walks each time and reports none, one that reports what
/// it did not read, as an entry's old walk, one that leaves out the second page or a later store of a zeroing, and an
/// AT that reads less where the cache could answer.
pub fn every_read()
    ensures call { EveryCall call_reads }
    ensures each { each_reads }
    ensures at { at_reads }
    ensures refused { refused_reads }
    ensures quiet { quiet_reads }
{}

/// Byte i of a load or a store, split or not, lies at the translation of its own address, no other byte changes, and a
/// zeroing that is done leaves 64 zero bytes; with stage 1 off an access lies whole from its first byte's translation
/// on. Rules out a byte of the next page taken from the first frame, a flat access that is split or judged by its last
/// byte, and a zeroing of fewer bytes or of the wrong line.
pub fn every_byte()
    ensures flat { AfterEveryRun flat_after }
    ensures load { load_byte_after }
    ensures store { store_byte_after }
    ensures others { store_others_after }
    ensures flat_loaded { flat_load_after }
    ensures flat_stored { flat_store_after }
    ensures flat_others { flat_others_after }
    ensures zeroing { zva_after }
{}
