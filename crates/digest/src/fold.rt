// A digest of words, one word after another.
ghost use Rattle.std.specs.Prelude.{◌≡◌};
ghost use Rattle.digest.specs.Fold.{joined};

// The digest of no words.
pub const START: u64 = 0x9E37_79B9_7F4A_7C15;

// A digest with one word more: three times itself plus the word, then its high half mixed into its low.
#[tactic(auto, unfolding(crate::specs::Fold::joined))]
pub fn join(h: u64, w: u64) -> u64
    ensures { result ≡ joined h w }
{
    let twice = h.wrapping_add(h);
    let thrice = twice.wrapping_add(h);
    let sum = thrice.wrapping_add(w);
    sum ^ (sum >> 32)
}
