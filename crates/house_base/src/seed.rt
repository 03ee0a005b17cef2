//! The seeds from which clusters and draws are made.

ghost use Rattle.std.specs.Prelude.{◌≡◌, ◌↔◌, IsTrue, IsSome, IfSome};
ghost use Rattle.std.specs.List.{list_all};
ghost use Rattle.std.specs.Str.{bytes_eq};
ghost use Rattle.std.specs.Cmp.Rules.{comparing};
ghost use Rattle.std.proofs.Common.{rules};
ghost use Rattle.house_base.specs.Seed.{is_seed, is_seed_byte};

use crate::limits::MOST_SEED_BYTES;
use std::fmt;
use std::marker::Model;

/// A seed: 1 to 64 bytes of `a-z`, `A-Z`, `0-9` and `-`.
#[derive(Clone, Copy)]
pub struct Seed {
    bytes: [u8; MOST_SEED_BYTES],
    len: usize,
}

impl Model for Seed {
    ghost use Rattle.std.specs.Prelude.{ℕ, ◌-◌, List, ◌++◌, length, take, replicate};
    ghost use Rattle.house_base.specs.declared.limits.TheConstants.{MOST_SEED_BYTES};
    ghost use Rattle.house_base.specs.Padded.{IsPadded};
    ghost use Rattle.house_base.specs.Seed.{is_seed};

    ghost Value = { List ℕ };

    ghost view = { λ s. take s.len s.bytes };

    ghost invariant = { λ s. IsPadded MOST_SEED_BYTES is_seed s.bytes s.len };

    ghost inverse = { λ text. record { bytes = text ++ replicate (MOST_SEED_BYTES - length text) 0; len = length text } };
}

impl Seed {
    /// The seed that a word spells. None where the word is not of the form of a seed.
    pub fn read(word: &[u8]) -> Option<Seed>
        ensures form { IsSome result ↔ IsTrue (is_seed word.now) }
        ensures value { IfSome result (λ seed. seed ≡ word.now) }
    {
        if !is_seed(word) {
            return None;
        }
        let mut bytes = [0; MOST_SEED_BYTES];
        bytes[..word.len()].copy_from_slice(word);
        Some(Seed {
            bytes,
            len: word.len(),
        })
    }

    /// The bytes of the seed.
    pub fn bytes(&self) -> &[u8]
        ensures value { result.now ≡ self.now }
        ensures form { IsTrue (is_seed self.now) }
    {
        &self.bytes[..self.len]
    }
}

impl PartialEq for Seed {
    ghost eq = { bytes_eq };

    ghost laws = { Prim.search (comparing, rules) };

    fn eq(&self, other: &Seed) -> bool
        ensures value { result ≡ bytes_eq self.now other.now }
        ensures same { IsTrue result ↔ (self.now ≡ other.now) }
    {
        self.bytes() == other.bytes()
    }
}

impl Eq for Seed {
    ghost laws = { Prim.search (comparing, rules) };
}

impl fmt::Debug for Seed {
    fn fmt<W: fmt::Write>(&self, f: &mut fmt::Formatter<W>) -> fmt::Result {
        for byte in self.bytes() {
            f.write_char(char::from(*byte))?;
        }
        Ok(())
    }
}

/// Whether a word is of the form of a seed.
#[tactic(auto, unfolding(crate::specs::Seed::is_seed))]
fn is_seed(word: &[u8]) -> bool
    ensures { result ≡ is_seed word.now }
{
    !word.is_empty() && word.len() <= MOST_SEED_BYTES && has_only_seed_bytes(word)
}

fn has_only_seed_bytes(word: &[u8]) -> bool
    ensures { result ≡ list_all is_seed_byte word.now }
{
    word.iter().all(|byte| is_seed_byte(*byte))
}

/// Whether a byte may stand in a seed.
fn is_seed_byte(byte: u8) -> bool
    ensures { result ≡ is_seed_byte byte }
{
    byte.is_ascii_alphanumeric() || byte == b'-'
}
