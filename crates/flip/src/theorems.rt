// What holds of every flip. Each function computes nothing: its contract is the theorem.
ghost use Rattle.std.specs.Prelude.{◌≡◌, ◌≢◌, ℕ, ◌+◌, ◌-◌, ◌*◌, ◌^◌, ◌<◌, ◌≤◌, Bool, true, false, not};
ghost use Rattle.std.specs.Prelude.{List, [], ◌∷◌, length, map, slice_get, Option, Some, None, Ok, Err};
ghost use Rattle.std.specs.List.{All};
ghost use Rattle.word.specs.Bits.{bit_on};
ghost use Rattle.word.specs.Places.{bits};
ghost use Rattle.word.specs.Ram.{word_at};
ghost use Rattle.sysreg.specs.declared.regs.Regime.TheVariants.{El1, El2, El3};
ghost use Rattle.walk.specs.Regime.{stage1_on};
ghost use Rattle.walk.specs.Table.{Lookup};
ghost use Rattle.cpu.specs.declared.check.Check.TheVariants as Check;
ghost use Rattle.tlb.specs.declared.access.Kind.{Kind};
ghost use Rattle.flip.specs.Question.{answer_on};
ghost use Rattle.flip.specs.Flip.{flipped, with_bit, descriptors, first_flip};
ghost use Rattle.flip.specs.Bits.{ram_bit, IsBytes, EachWord, IsNone};
ghost use Rattle.flip.specs.Views.{EachView, EachAsked};
ghost use Rattle.flip.specs.Cases.{WorkedDescriptors, WorkedTables, WorkedViews, WorkedNothing};
ghost use Rattle.flip.specs.Found.{turned, IsBitOf, NoneBefore, EachQuestion};
ghost use Rattle.flip.specs.Laws.{IsOutside};
ghost use Rattle.flip.specs.FirstDescriptor.{first_table, descriptor_in, has_blocks, EachFirst};
ghost use Rattle.flip.specs.declared.{FlippedBit.FlippedBit, Question.Question};

// The bit that is found is of a descriptor that the walk fetches and that lies in RAM with all its bytes; its flip
// changes the answer, and that of no bit before it does, by walk order and then from the lowest bit up. A bit of
// which this is true is found; and none is just where no bit of any such descriptor changes the answer. It rules out
// the last descriptor, the highest bit, and a bit that changes nothing.
pub fn found_bits()
    ensures found_changes { EachQuestion (λ q base ram. (f : FlippedBit) → first_flip q base ram ≡ Some f
        → turned q base ram f ≢ answer_on q base ram) }
    ensures found_first { EachQuestion (λ q base ram. (f : FlippedBit) → first_flip q base ram ≡ Some f
        → (n : ℕ) × (IsBitOf q base ram n f × NoneBefore q base ram n f)) }
    ensures first_found { EachQuestion (λ q base ram. (n : ℕ) (f : FlippedBit) → IsBitOf q base ram n f
        → turned q base ram f ≢ answer_on q base ram → NoneBefore q base ram n f → first_flip q base ram ≡ Some f) }
    ensures none_changes { EachQuestion (λ q base ram. first_flip q base ram ≡ None
        → (n : ℕ) (f : FlippedBit) → IsBitOf q base ram n f → turned q base ram f ≡ answer_on q base ram) }
    ensures none_found { EachQuestion (λ q base ram. ((n : ℕ) (f : FlippedBit) → IsBitOf q base ram n f
        → turned q base ram f ≡ answer_on q base ram) → first_flip q base ram ≡ None) }
{}

// Where nothing is found, no bit of RAM changes the answer: no bit of a descriptor, none that no walk reads, and none
// of a descriptor that is cut by the window's end. It rules out a search that passes over a descriptor or a bit.
#[tactic(auto, using(crate::proofs::Frame::frame_laws))]
pub fn no_bits()
    ensures none_anywhere { EachQuestion (λ q base ram. first_flip q base ram ≡ None
        → (n : ℕ) → n < 8 * length ram → answer_on q base (flipped ram n) ≡ answer_on q base ram) }
{}

// A bit of no descriptor that the walk fetches and that lies wholly in RAM changes no answer. It rules out an answer
// that reads RAM but through its walk, and a walk that reads more of RAM than its descriptors.
#[tactic(auto, using(crate::proofs::Frame::frame_laws))]
pub fn elsewhere()
    ensures { EachQuestion (λ q base ram. (n : ℕ) → All (IsOutside base ram n) (descriptors q base ram)
        → answer_on q base (flipped ram n) ≡ answer_on q base ram) }
{}

// With stage 1 alone what is found is bit 0 or bit 1 of the first descriptor fetched, or nothing: bits 1:0 of its word
// tell which, and whether a block may stand at its level; so kind and view count for nothing there. Nothing is found
// where none is fetched, or where it does not lie wholly in RAM. It rules out a report from a deeper table, and one of
// a higher bit.
#[tactic(auto, using(crate::proofs::FirstDescriptor::first_laws))]
pub fn first_descriptor()
    ensures no_other { EachQuestion (λ q base ram. (f : FlippedBit) → first_flip q base ram ≡ Some f
        → (slice_get (descriptors q base ram) 0 ≡ Some f.pa) × (f.bit ≤ 1)) }
    ensures not_begun { EachQuestion (λ q base ram. first_table q ≡ None
        → (descriptors q base ram ≡ []) × (first_flip q base ram ≡ None)) }
    ensures first_fetched { EachQuestion (λ q base ram. (l : Lookup) → first_table q ≡ Some l
        → slice_get (descriptors q base ram) 0 ≡ Some (descriptor_in q l)) }
    ensures outside { EachQuestion (λ q base ram. (l : Lookup) → first_table q ≡ Some l
        → word_at base ram 8 (descriptor_in q l) ≡ None → first_flip q base ram ≡ None) }
    ensures any_access { EachQuestion (λ q base ram. (user : Bool) (kind : Kind)
        → first_flip (record q { user = user; kind = kind }) base ram ≡ first_flip q base ram) }
    // a table, or at level 3 a page
    ensures bits_11 { EachFirst (λ blocks desc bit_of found. bits desc 1 0 ≡ 0b11 → found ≡ Some (bit_of 0)) }
    ensures bits_10 { EachFirst (λ blocks desc bit_of found. bits desc 1 0 ≡ 0b10 → found ≡ Some (bit_of 0)) }
    // a block where one may stand, and where none may
    ensures bits_01_block { EachFirst (λ blocks desc bit_of found. bits desc 1 0 ≡ 0b01 → blocks ≡ true
        → found ≡ Some (bit_of 0)) }
    ensures bits_01 { EachFirst (λ blocks desc bit_of found. bits desc 1 0 ≡ 0b01 → blocks ≡ false
        → found ≡ Some (bit_of 1)) }
    ensures bits_00_block { EachFirst (λ blocks desc bit_of found. bits desc 1 0 ≡ 0b00 → blocks ≡ true
        → found ≡ Some (bit_of 0)) }
    ensures bits_00 { EachFirst (λ blocks desc bit_of found. bits desc 1 0 ≡ 0b00 → blocks ≡ false → found ≡ None) }
    // at levels 0 to 3 with a granule of 4 KiB, 1 to 3 with 64 KiB
    ensures blocks_4k { map (has_blocks false) (0 ∷ 1 ∷ 2 ∷ 3 ∷ []) ≡ (false ∷ true ∷ true ∷ false ∷ []) }
    ensures blocks_64k { map (has_blocks true) (1 ∷ 2 ∷ 3 ∷ []) ≡ (false ∷ true ∷ false ∷ []) }
{}

// What a flip does, bit by bit: of RAM the one is the other way and every other as it was, and flipped twice RAM is
// as it was; of a word that lies in RAM it is that bit of its value, the lowest byte first. A bit that there is not
// flips nothing. It rules out bits that are counted from a byte's top, and a word whose bytes are turned round.
pub fn flips()
    ensures length { (ram : List ℕ) (n : ℕ) → length (flipped ram n) ≡ length ram }
    ensures bytes { (ram : List ℕ) (n : ℕ) → IsBytes ram → IsBytes (flipped ram n) }
    ensures turned { (ram : List ℕ) (n : ℕ) → n < 8 * length ram → ram_bit (flipped ram n) n ≡ not (ram_bit ram n) }
    ensures kept { (ram : List ℕ) (n i : ℕ) → i ≢ n → ram_bit (flipped ram n) i ≡ ram_bit ram i }
    ensures twice { (ram : List ℕ) (n : ℕ) → flipped (flipped ram n) n ≡ ram }
    ensures placed { (base : ℕ) (ram : List ℕ) (f : FlippedBit) → f.bit < 64 → base ≤ f.pa
        → f.pa + 8 ≤ base + length ram → with_bit base ram f ≡ flipped ram (8 * (f.pa - base) + f.bit) }
    ensures word_turned { EachWord (λ bit word after. bit_on after bit ≡ not (bit_on word bit)) }
    ensures word_kept { EachWord (λ bit word after. (i : ℕ) → i < 64 → i ≢ bit
        → bit_on after i ≡ bit_on word i) }
    ensures nothing { (base : ℕ) (ram : List ℕ) (f : FlippedBit) → IsNone base ram f → with_bit base ram f ≡ ram }
{}

// At each level a question is of the registers of that level's own regime, EL0's of EL1's. At EL0 and EL1 its view is
// the call's, whatever the level; at EL2 and EL3 there is one. A call tells the first flip of its question; before it a
// level that there is not, and then a window of RAM that passes 2^64. Where stage 1 is off nothing is found. It rules
// out, in code and definition alike, another level's registers, and two views at EL2.
pub fn views()
    ensures at_el0 { EachView (λ asks by. (user : Bool) → asks 0 user ≡ by 1 El1 user) }
    ensures at_el1 { EachView (λ asks by. (user : Bool) → asks 1 user ≡ by 1 El1 user) }
    ensures at_el2 { EachView (λ asks by. (user : Bool) → asks 2 user ≡ by 2 El2 false) }
    ensures at_el3 { EachView (λ asks by. (user : Bool) → asks 3 user ≡ by 3 El3 false) }
    ensures stage1_off { (q : Question) (base : ℕ) (ram : List ℕ) → stage1_on q.bank q.regime ≡ false
        → first_flip q base ram ≡ None }
    ensures told { EachAsked (λ level end found first. level ≤ 3 → end ≤ 2 ^ 64 → found ≡ Ok first) }
    ensures no_level { EachAsked (λ level end found first. 3 < level → found ≡ Err Check.Level) }
    ensures no_window { EachAsked (λ level end found first. level ≤ 3 → 2 ^ 64 < end → found ≡ Err Check.Window) }
{}

// Flips worked out, computed: one descriptor of each kind, at levels where a block may stand and where none may;
// tables, of which one maps itself; views and accesses; and what reads no descriptor. They rule out a search of bit 0
// alone, two faults that are taken for one, a flip that one of two reads does not see, and a descriptor that is cut
// by the window.
pub fn worked_flips()
    ensures descriptors { WorkedDescriptors }
    ensures tables { WorkedTables }
    ensures views { WorkedViews }
    ensures nothing { WorkedNothing }
{}
