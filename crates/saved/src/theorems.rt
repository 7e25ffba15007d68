// What holds of every core's words. Each function computes nothing: its contract is the theorem.
ghost use Rattle.std.specs.Prelude.{◌≡◌, ℕ, List};
ghost use Rattle.cpu.specs.Core.{fresh_core};
ghost use Rattle.cpu.specs.declared.Core.{Core};
ghost use Rattle.saved.specs.CoreOf.{word, core_of};
ghost use Rattle.saved.specs.Fits.{Fits};
ghost use Rattle.saved.specs.NamedPlaces.{registers_named, general_named, parts_named};
ghost use Rattle.saved.specs.NamedPlaces.{hints_named, entries_named, tallies_named};
ghost use Rattle.saved.specs.PartWords.{PendingSaved, PendingRestored, FetchSaved, FetchRestored};
ghost use Rattle.saved.specs.PartWords.{AttributesSaved, AttributesRestored, LevelRestored};
ghost use Rattle.saved.specs.WordsOf.{word_of, words_of, held};

/// The words of a core, one by one and as they are saved, are the same. It rules out a word that `save` writes and
/// `word` reads elsewhere.
#[tactic(auto, using(crate::proofs::Saving::word_of_saved))]
pub fn word_by_word()
    ensures { (c : Core) (p : ℕ) → word (words_of c) p ≡ word_of c p }
{}

/// A core that a program holds comes back out of its words, but for what no word holds, and a core after reset and
/// each core that words hold comes back whole. It rules out a part that is saved nowhere, and two parts in one
/// word.
#[tactic(auto, using(crate::proofs::Saving::saved_again, crate::proofs::Whole::fresh_whole, crate::proofs::Whole::restored_whole))]
pub fn saved_and_restored()
    ensures every { (c : Core) → Fits c → core_of (words_of c) ≡ held c }
    ensures fresh { held fresh_core ≡ fresh_core }
    ensures restored { (words : List ℕ) → held (core_of words) ≡ core_of words }
{}

/// Each part of a core stands at the place that bears its name. It rules out two parts that change places in `save`,
/// `restore` and their definitions alike.
pub fn named_places()
    ensures registers { registers_named }
    ensures generals { general_named }
    ensures parts { parts_named }
    ensures hints { hints_named }
    ensures entries { entries_named }
    ensures tallies { tallies_named }
{}

/// What the words of some parts say, in numbers, and the parts that words give: what is pending, the attributes of an
/// entry, the level. It rules out two kinds of what is pending, and two fields of the attributes, that change places in
/// `save`, `restore` and their definitions alike.
pub fn words_of_parts()
    ensures pending_saved { (c : Core) (page asid : ℕ) → PendingSaved c page asid }
    ensures pending_restored { (words : List ℕ) (value : ℕ) → PendingRestored words value }
    ensures fetch_saved { (c : Core) (page level pa : ℕ) → FetchSaved c page level pa }
    ensures fetch_restored { (words : List ℕ) (page pa : ℕ) → FetchRestored words page pa }
    ensures attributes_saved { AttributesSaved }
    ensures attributes_restored { AttributesRestored }
    ensures level_restored { (words : List ℕ) → LevelRestored words }
{}
