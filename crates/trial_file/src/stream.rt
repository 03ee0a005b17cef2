//! The words of the ChaCha8 generator of a seed.

ghost use Rattle.std.specs.Prelude.{◌≡◌, ◌<◌, ◌+◌, ◌^◌};
ghost use Rattle.rand_chacha.specs.ChaCha.{key_of};
ghost use Rattle.trial_file.specs.Stream.{key_bytes, key_words};

use rand_chacha::ChaCha8Rng;
use rand_core::SeedableRng;
use rand_core::utils::NextWord;

/// The generator of a seed, at its start.
pub(crate) fn generator_of(seed: u64) -> ChaCha8Rng
    ensures key { result.key ≡ key_of (key_bytes seed) }
    ensures stream { result.stream ≡ 0 }
    ensures start { result.word_pos ≡ 0 }
{
    ChaCha8Rng::from_seed(key_bytes(seed))
}

/// The key of a seed: its bytes, the low ones first, and 24 bytes 0.
#[tactic(auto, unfolding(crate::specs::Stream::key_bytes))]
fn key_bytes(seed: u64) -> [u8; 32]
    ensures { result ≡ key_bytes seed }
{
    let mut bytes = [0; 32];
    bytes[..8].copy_from_slice(&seed.to_le_bytes());
    bytes
}

/// The next word of a generator.
pub(crate) fn next_word(generator: &mut ChaCha8Rng) -> u32
    requires stream { generator.old.stream ≡ 0 }
    requires bound { generator.old.word_pos < 2 ^ 64 }
    ensures word { result ≡ key_words generator.old.key generator.old.word_pos }
    ensures rest { generator.new ≡ record generator.old { word_pos = generator.old.word_pos + 1 } }
{
    generator.next_word()
}
