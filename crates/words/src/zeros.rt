// The words that are not named: 0.
ghost use Rattle.std.specs.Prelude.{true, ◌↔◌, ◌≡◌, length, replicate};

// Sets every word to 0.
pub fn clear(words: &mut [u32])
    ensures { words.new ≡ replicate (length words.old) 0 }
{
    words.fill(0);
}

// Whether every word is 0. All bits are gathered, with no way out of the loop on the way, so that many words are read at a time.
#[tactic(auto, using(crate::proofs::Laws::Words::gathered_tells))]
pub fn are_zero(words: &[u32]) -> bool
    ensures { (result ≡ true) ↔ (words.now ≡ replicate (length words.now) 0) }
{
    words.iter().fold(0u32, |bits, word| bits | *word) == 0
}
