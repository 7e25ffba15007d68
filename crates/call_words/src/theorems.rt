// What holds of the codes of the boundary. Each function computes nothing: its contract is the theorem.
ghost use Rattle.std.specs.Prelude.{ℕ, List};
ghost use Rattle.call_words.specs.Codes.{CallCodes, ExceptionCodes, ReplyCodes, WalkCodes};

/// Each code with the call and the exception that it names, each reply with its number, its value, what was read and
/// its words, and of a walk its regimes, words and numbers, all in numbers, with whole walks of one descriptor and of
/// none. It rules out two codes that change places, an instruction abort that is told as a data abort, a refused call
/// that reports reads, and a walk that reports none or its leaf's level for them.
pub fn codes_of_the_boundary()
    ensures calls { (a b c d e : ℕ) (rest : List ℕ) → CallCodes a b c d e rest }
    ensures exceptions { (a b c : ℕ) → ExceptionCodes a b c }
    ensures replies { (a reads old : ℕ) → ReplyCodes a reads old }
    ensures walks { (words : List ℕ) (va : ℕ) → WalkCodes words va }
{}
