//! The draw and the seal of a seed.

ghost use Rattle.std.specs.Prelude.{◌≡◌, ◌↔◌, ◌≤◌, ◌<◌, ◌++◌, IsTrue, codes};
ghost use Rattle.house_model.specs.Seeds.{seed_draw, seed_seal};
ghost use Rattle.sha2.specs.Sha256.{sha256};

use house_base::Seed;
use sha2::{Digest, Sha256};

/// The draw of a seed for a denominator: the first 16 bytes of the SHA-256 digest (FIPS 180-4) of `lottery:SEED`,
/// read as a big-endian number, modulo the denominator. Nothing is said of how likely a draw is over all seeds.
pub fn draw_of(seed: &Seed, den: u64) -> u64
    requires den { 1 ≤ den }
    ensures value { result ≡ seed_draw seed.now den }
    ensures below { result < den }
{
    let digest = digest_of(b"lottery:", seed);
    let mut first = [0; 16];
    first.copy_from_slice(&digest[..16]);
    (u128::from_be_bytes(first) % u128::from(den)) as u64
}

/// The seal of a seed: the SHA-256 digest of `seal:SEED`. It is published before the reviews, so that the seed can be
/// shown to have been chosen by then.
pub fn seal_of(seed: &Seed) -> [u8; 32]
    ensures { result ≡ seed_seal seed.now }
{
    digest_of(b"seal:", seed)
}

/// Whether a seal is that of a seed.
pub fn is_sealed_by(seed: &Seed, seal: &[u8; 32]) -> bool
    ensures { IsTrue result ↔ (seed_seal seed.now ≡ seal.now) }
{
    let digest = seal_of(seed);
    digest.as_slice() == seal.as_slice()
}

/// The digest of a seed behind what it is used for.
fn digest_of(use_of: &[u8], seed: &Seed) -> [u8; 32]
    ensures { result ≡ sha256 (use_of.now ++ seed.now) }
{
    let mut hasher = Sha256::new();
    hasher.update(use_of);
    hasher.update(seed.bytes());
    hasher.finalize()
}
