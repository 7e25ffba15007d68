// What holds of every list of windows. Each function computes nothing: its contract is the theorem.
ghost use Rattle.std.specs.Prelude.{◌≡◌, ℕ, ◌+◌, ◌^◌, ◌<◌, ◌≤◌, ◌⊎◌, List, length, slice_index, Option, Some, None, Ok, Err};
ghost use Rattle.word.specs.Ram.{word_at};
ghost use Rattle.word.specs.Tables.{table};
ghost use Rattle.fault.specs.declared.Fault.{Fault};
ghost use Rattle.sysreg.specs.declared.regs.Control.{Control};
ghost use Rattle.windows.specs.declared.WindowsError.TheVariants as Error;
ghost use Rattle.windows.specs.declared.{list.Window.Window, list.Malformed.Malformed, pages.PageFault.PageFault};
ghost use Rattle.windows.specs.declared.Pair.{Pair};
ghost use Rattle.windows.specs.List.{count_of, window_at, list_of};
ghost use Rattle.windows.specs.Right.{RightList, RightWindows, Told, bytes_of_windows};
ghost use Rattle.windows.specs.Laws.{IsPage, Earlier, EachAnswer};
ghost use Rattle.windows.specs.Windows.{found_in, windows_of};
ghost use Rattle.windows.specs.Cases.{WorkedBytes, WorkedAnswers, WorkedBlocks};

// A list is read just where it is right, each condition by itself, and then its windows are those that stand in it; the
// reason that is told of another is true of it, and nothing before it is wrong. A list that is written from right
// windows, all first addresses and then all lengths, is read as these windows, and no other is. It rules out a list
// with a byte too many, a count of 65, lengths that are read among the first addresses, a window that is refused where it
// ends at 2^64, and a reason made up.
pub fn lists()
    ensures right_read { (bytes : List ℕ) → RightList bytes
        → list_of bytes ≡ Ok (table (count_of bytes) (window_at bytes (count_of bytes))) }
    ensures read_right { (bytes : List ℕ) (ws : List Window) → list_of bytes ≡ Ok ws
        → RightList bytes × (ws ≡ table (count_of bytes) (window_at bytes (count_of bytes))) }
    ensures reasons { (bytes : List ℕ) (why : Malformed) → list_of bytes ≡ Err why → Told bytes why }
    ensures written_read { (ws : List Window) → RightWindows ws → list_of (bytes_of_windows ws) ≡ Ok ws }
    ensures read_written { (bytes : List ℕ) → ((k : ℕ) → slice_index bytes k < 256) → (ws : List Window)
        → list_of bytes ≡ Ok ws → bytes ≡ bytes_of_windows ws }
{}

// A list that is written from right windows is answered as these windows are, by the call's own level and RAM. It rules
// out, in code and definition alike, another level's regime and other windows than the list's.
pub fn answers()
    ensures { (control : Control) (level base : ℕ) (ram : List ℕ) (ws : List Window) → level ≤ 3
        → base + length ram ≤ 2 ^ 64 → RightWindows ws → windows_of control level base ram (bytes_of_windows ws)
        ≡ found_in control level (word_at base ram 8) ws }
{}

// 10 tells a page that faults so, and each page before it, by window and then by page, is an address. Where there is an
// answer every page is. It rules out the last fault, one by page and then by window, and a page that is not looked at.
pub fn faults()
    ensures told_page { EachAnswer (λ ws answer ends shared. (e : PageFault) → answer ≡ Err (Error.Page e)
        → IsPage ws e.window e.page × (ends e.window e.page ≡ Err e.fault)) }
    ensures first_page { EachAnswer (λ ws answer ends shared. (e : PageFault) → answer ≡ Err (Error.Page e)
        → (i j : ℕ) → IsPage ws i j → Earlier i j e.window e.page → (pa : ℕ) × (ends i j ≡ Ok pa)) }
    ensures all_reached { EachAnswer (λ ws answer ends shared. (q : Option Pair) → answer ≡ Ok q
        → (i j : ℕ) → IsPage ws i j → (pa : ℕ) × (ends i j ≡ Ok pa)) }
{}

// A page that faults is told, whatever windows share pages. It rules out a pair that is found before all pages are
// translated.
pub fn fault_before_pair()
    ensures fault_told { EachAnswer (λ ws answer ends shared. (i j : ℕ) (f : Fault) → IsPage ws i j → ends i j ≡ Err f
        → (e : PageFault) × (answer ≡ Err (Error.Page e))) }
{}

// The pair that is told shares a physical page, and none before it does, by lower number and then by higher. Where none
// is told no two share one, and pages that repeat only inside a window make no pair. It rules out an order by the
// higher number first, and a window that meets itself.
pub fn pairs()
    ensures pair_shares { EachAnswer (λ ws answer ends shared. (p : Pair) → answer ≡ Ok (Some p)
        → (p.first < p.second) × (p.second < length ws) × shared p.first p.second) }
    ensures pair_is_least { EachAnswer (λ ws answer ends shared. (p : Pair) → answer ≡ Ok (Some p)
        → (i k : ℕ) → i < k → k < length ws → shared i k → (p.first < i) ⊎ ((p.first ≡ i) × (p.second ≤ k))) }
    ensures apart_shares_none { EachAnswer (λ ws answer ends shared. answer ≡ Ok None
        → (i k : ℕ) → i < k → k < length ws → shared i k → ⊥) }
    ensures own_pages_free { EachAnswer (λ ws answer ends shared. ((i j : ℕ) → IsPage ws i j
        → (pa : ℕ) × (ends i j ≡ Ok pa)) → ((i k : ℕ) → i < k → k < length ws → shared i k → ⊥) → answer ≡ Ok None) }
{}

// Lists worked out, computed: the bytes of right ones and of each that is refused; pages that are shared, by two
// windows and by one alone, at EL1 and at EL0; faults beside a pair; blocks, and stage 1 off. They rule out a list read
// in turns of first address and length, a page judged by EL0's rights, and the low twelve bits compared too.
pub fn worked_lists()
    ensures bytes { WorkedBytes }
    ensures answers { WorkedAnswers }
    ensures blocks { WorkedBlocks }
{}
