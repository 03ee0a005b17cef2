//! The keys of a call file.

ghost use Rattle.std.specs.Prelude.{◌≡◌};
ghost use Rattle.call_file.specs.Keys.{is_named, key_word};

/// A key of a call file, or any other.
#[derive(Clone, Copy, Debug, PartialEq, Eq)]
pub enum Key {
    Version,
    Seats,
    Clusters,
    Reviews,
    Partition,
    Seal,
    Other,
}

impl Key {
    /// The key as a call file writes it.
    pub fn word(self) -> &'static str
        ensures { result.now ≡ key_word self }
    {
        match self {
            Key::Version => "version",
            Key::Seats => "seats",
            Key::Clusters => "clusters",
            Key::Reviews => "reviews",
            Key::Partition => "partition",
            Key::Seal => "seal",
            Key::Other => "other",
        }
    }
}

/// Whether a word is one of the keys that have a meaning.
pub(crate) fn is_named(word: &str) -> bool
    ensures { result ≡ is_named word.now }
{
    word == "version"
        || word == "seats"
        || word == "clusters"
        || word == "reviews"
        || word == "partition"
        || word == "seal"
}
