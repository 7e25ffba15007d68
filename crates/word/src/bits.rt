// Bit fields whose place is a variable, and small values as words. A place is taken modulo 64, as the machine's shifts
// take it, so that each function is total.
ghost use Rattle.std.specs.Prelude.{◌≡◌, ◌+◌, ◌%◌, ◌^◌, ◌≤◌};
ghost use Rattle.word.specs.Bits.{align_down, wrap, flag};

/// `x` with its low `n` bits clear.
pub fn align_down(x: u64, n: u64) -> u64
    ensures { result ≡ align_down x (n % 64) }
{
    let n = n % 64;
    x >> n << n
}

/// The low `n` bits of `x`.
pub fn low_bits(x: u64, n: u64) -> u64
    ensures { result ≡ x % 2 ^ (n % 64) }
{
    x - align_down(x, n)
}

/// One more, modulo 2^64: how every counter moves.
pub fn more(n: u64) -> u64
    ensures { result ≡ wrap (n + 1) }
{
    n.wrapping_add(1)
}

/// A flag as a word.
pub fn flag_word(on: bool) -> u64
    ensures value { result ≡ flag on 1 }
    ensures upper_bound { result ≤ 1 }
{
    u64::from(on)
}

/// A byte as a word.
pub fn wide(x: u8) -> u64
    ensures value { result ≡ x }
    ensures upper_bound { result ≤ 255 }
{
    u64::from(x)
}
