//! An audit that was made anew.

use std::marker::Model;

/// An audit that was made anew.
#[derive(Drop)]
pub struct Fresh {
    audit: Vec<u8>,
}

impl Model for Fresh {
    ghost use Rattle.std.specs.Prelude.{ℕ, List};

    ghost Value = { List ℕ };

    ghost view = { λ f. f.audit.items };
}

ghost use Rattle.std.specs.Prelude.{◌≡◌};

impl Fresh {
    pub(crate) fn new(audit: Vec<u8>) -> Fresh
        ensures { result ≡ audit.items }
    {
        Fresh { audit }
    }

    /// The bytes of the audit.
    pub fn bytes(&self) -> &[u8]
        ensures { result.now ≡ self.now }
    {
        self.audit.as_slice()
    }
    /// The bytes of the audit, with none of them copied.
    pub fn into_bytes(self) -> Vec<u8>
        ensures { result.items ≡ self }
    {
        self.audit
    }
}
