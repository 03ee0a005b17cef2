//! The chain of digests.

ghost use Rattle.std.specs.Prelude.{◌≡◌};
ghost use Rattle.audit_chain.specs.Chain.{link};

use sha2::{Digest, Sha256};

/// The digest before the first line.
pub(crate) const NO_DIGEST: [u8; 32] = [0; 32];

/// The digest behind a line: the SHA-256 digest (FIPS 180-4) of the 32 bytes of the digest before it and then the line.
pub(crate) fn link(before: &[u8; 32], line: &[u8]) -> [u8; 32]
    ensures { result ≡ link before.now line.now }
{
    let mut hasher = Sha256::new();
    hasher.update(before.as_slice());
    hasher.update(line);
    hasher.finalize()
}
