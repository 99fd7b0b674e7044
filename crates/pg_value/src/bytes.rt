//! A text as its bytes. No encoding is checked, and texts compare byte by byte, as under collation C.

ghost use Rattle.std.specs.Prelude.{◌≡◌, IfOk, map};
ghost use Rattle.std.specs.Char.{to_ascii_lowercase};

use std::alloc::{AllocError, Global};
use std::marker::Model;

/// A list of bytes. Contracts see the list.
#[derive(Debug)]
pub struct Bytes {
    bytes: Vec<u8>,
}

impl Drop for Bytes {
    fn drop(self) {
        let Bytes { bytes: _ } = self;
    }
}

impl Model for Bytes {
    ghost use Rattle.std.specs.Prelude.{List, ℕ};

    ghost Value = { List ℕ };

    ghost view = { λ b. b.bytes.items };
}

impl Bytes {
    /// The text of these bytes.
    pub fn from_vec(v: Vec<u8>) -> Bytes
        ensures { result ≡ v.items }
    {
        Bytes { bytes: v }
    }

    /// The bytes, lent.
    pub fn items(&self) -> &[u8]
        ensures { result.now ≡ self.now }
    {
        &self.bytes
    }

    /// The text with its capital letters as small ones.
    pub(crate) fn into_small_letters(self) -> Bytes
        ensures { result ≡ map to_ascii_lowercase self }
    {
        let Bytes { mut bytes } = self;
        bytes.make_ascii_lowercase();
        Bytes { bytes }
    }

    /// An equal text.
    pub fn copy(&self, alloc: Global) -> Result<Bytes, AllocError>
        ensures { IfOk result (λ b. b ≡ self.now) }
    {
        Ok(Bytes {
            bytes: Vec::from_slice(alloc, &self.bytes)?,
        })
    }
}
