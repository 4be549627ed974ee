ghost use Rattle.std.specs.Prelude.{◌≡◌, ◌<◌, ◌++◌, OnOk};
ghost use Rattle.aip_gen.specs.Draws.{below, secret, word, word_in_hex};

use aip_text::push_hex;
use rand_xoshiro::SplitMix64;
use rand_xoshiro::rand_core::utils::NextWord;
use std::alloc::AllocError;

// The next word.
#[tactic(auto, unfolding(crate::specs::Draws::word))]
fn word(words: &mut SplitMix64) -> u64
    ensures drawn { result ≡ (word words.old).0 }
    ensures state { words.new ≡ (word words.old).1 }
{
    words.next_word()
}

/// A number below `m`: the next word modulo `m`.
pub fn below(words: &mut SplitMix64, m: u64) -> u64
    requires { 0 < m }
    ensures drawn { result ≡ (below m words.old).0 }
    ensures state { words.new ≡ (below m words.old).1 }
    ensures less { result < m }
{
    word(words) % m
}

// Appends the next word in hex, the high byte first.
fn push_word_in_hex(words: &mut SplitMix64, out: &mut Vec<u8>) -> Result<(), AllocError>
    ensures drawn { OnOk result (out.new.items ≡ out.old.items ++ (word_in_hex words.old).0) }
    ensures state { OnOk result (words.new ≡ (word_in_hex words.old).1) }
{
    push_hex(out, &word(words).to_be_bytes())
}

/// Appends a drawn secret in hex: four words, 64 digits.
#[tactic(auto, unfolding(crate::specs::Draws::secret))]
pub fn push_secret(words: &mut SplitMix64, out: &mut Vec<u8>) -> Result<(), AllocError>
    ensures drawn { OnOk result (out.new.items ≡ out.old.items ++ (secret words.old).0) }
    ensures state { OnOk result (words.new ≡ (secret words.old).1) }
{
    push_word_in_hex(words, out)?;
    push_word_in_hex(words, out)?;
    push_word_in_hex(words, out)?;
    push_word_in_hex(words, out)
}
