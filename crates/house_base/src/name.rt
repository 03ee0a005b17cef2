//! The names of applicants and persons.

ghost use Rattle.std.specs.Prelude.{◌≡◌, ◌↔◌, IsTrue, IsSome, IfSome, Some, slice_index, refl};
ghost use Rattle.std.specs.List.{list_all};
ghost use Rattle.std.specs.Str.{bytes_eq};
ghost use Rattle.std.specs.Ordering.{nat_cmp};
ghost use Rattle.std.specs.Cmp.Lexicographic.{slice_cmp, nat_list_cmp_total, texts_ties, texts_po};
ghost use Rattle.std.specs.Cmp.Rules.{comparing};
ghost use Rattle.std.proofs.Common.{rules};
ghost use Rattle.house_base.specs.Name.{is_letter, is_name, is_name_byte};

use crate::limits::MOST_NAME_BYTES;
use std::cmp::Ordering;
use std::fmt;
use std::marker::Model;

/// The name of an applicant or of a person: 1 to 24 bytes of `a-z`, `0-9` and `-`, the first a letter.
#[derive(Clone, Copy)]
pub struct Name {
    bytes: [u8; MOST_NAME_BYTES],
    len: usize,
}

impl Model for Name {
    ghost use Rattle.std.specs.Prelude.{ℕ, ◌-◌, List, ◌++◌, length, take, replicate};
    ghost use Rattle.house_base.specs.declared.limits.TheConstants.{MOST_NAME_BYTES};
    ghost use Rattle.house_base.specs.Name.{is_name};
    ghost use Rattle.house_base.specs.Padded.{IsPadded};

    ghost Value = { List ℕ };

    ghost view = { λ n. take n.len n.bytes };

    ghost invariant = { λ n. IsPadded MOST_NAME_BYTES is_name n.bytes n.len };

    ghost inverse = { λ text. record { bytes = text ++ replicate (MOST_NAME_BYTES - length text) 0; len = length text } };
}

impl Name {
    /// The name that a word spells. None where the word is not of the form of a name.
    pub fn read(word: &[u8]) -> Option<Name>
        ensures form { IsSome result ↔ IsTrue (is_name word.now) }
        ensures value { IfSome result (λ name. name ≡ word.now) }
    {
        if !is_name(word) {
            return None;
        }
        let mut bytes = [0; MOST_NAME_BYTES];
        bytes[..word.len()].copy_from_slice(word);
        Some(Name {
            bytes,
            len: word.len(),
        })
    }

    /// The bytes of the name.
    pub fn bytes(&self) -> &[u8]
        ensures value { result.now ≡ self.now }
        ensures form { IsTrue (is_name self.now) }
    {
        &self.bytes[..self.len]
    }
}

impl PartialEq for Name {
    ghost eq = { bytes_eq };

    ghost laws = { Prim.search (comparing, rules) };

    fn eq(&self, other: &Name) -> bool
        ensures value { result ≡ bytes_eq self.now other.now }
        ensures same { IsTrue result ↔ (self.now ≡ other.now) }
    {
        self.bytes() == other.bytes()
    }
}

impl Eq for Name {
    ghost laws = { Prim.search (comparing, rules) };
}

/// Names are ordered by their bytes.
impl PartialOrd for Name {
    ghost partial_cmp = { λ x y. Some (slice_cmp nat_cmp x y) };

    ghost laws = { texts_po };

    fn partial_cmp(&self, other: &Name) -> Option<Ordering> {
        Some(self.cmp(other))
    }
}

impl Ord for Name {
    ghost cmp = { slice_cmp nat_cmp };

    ghost total = { nat_list_cmp_total };

    ghost matches_partial_cmp = { λ x y. refl };

    ghost matches_eq = { texts_ties };

    fn cmp(&self, other: &Name) -> Ordering {
        self.bytes().cmp(other.bytes())
    }
}

impl fmt::Debug for Name {
    fn fmt<W: fmt::Write>(&self, f: &mut fmt::Formatter<W>) -> fmt::Result {
        for byte in self.bytes() {
            f.write_char(char::from(*byte))?;
        }
        Ok(())
    }
}

/// Whether a word is of the form of a name.
#[tactic(auto, unfolding(crate::specs::Name::is_name))]
fn is_name(word: &[u8]) -> bool
    ensures { result ≡ is_name word.now }
{
    word.len() <= MOST_NAME_BYTES && begins_with_letter(word) && has_only_name_bytes(word)
}

fn begins_with_letter(word: &[u8]) -> bool
    ensures { result ≡ is_letter (slice_index word.now 0) }
{
    word.first().is_some_and(u8::is_ascii_lowercase)
}

fn has_only_name_bytes(word: &[u8]) -> bool
    ensures { result ≡ list_all is_name_byte word.now }
{
    word.iter().all(|byte| is_name_byte(*byte))
}

/// Whether a byte may stand in a name.
fn is_name_byte(byte: u8) -> bool
    ensures { result ≡ is_name_byte byte }
{
    byte.is_ascii_lowercase() || byte.is_ascii_digit() || byte == b'-'
}
