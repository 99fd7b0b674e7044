//! What stands before the line of a node.

ghost use Rattle.std.specs.Prelude.{◌≡◌, ◌+◌, ◌++◌, IfOk, OnOk};
ghost use Rattle.explain.specs.Texts.{lead};
ghost use Rattle.explain.specs.work.Texts.{six_before};

use pg_base::Memory;
use std::alloc::Global;
use std::marker::Model;

/// What stands before a line: nothing at the top, else spaces and an arrow. Contracts see the depth of the line, from 0.
#[derive(Drop)]
pub(crate) struct Lead {
    text: Vec<u8>,
}

impl Model for Lead {
    ghost use Rattle.std.specs.Prelude.{◌≡◌, ◌/◌, ℕ, length};
    ghost use Rattle.explain.specs.Texts.{lead};
    ghost use Rattle.explain.specs.work.Texts.{six_before};

    ghost Value = { ℕ };

    ghost view = { λ l. length l.text.items / 6 };

    ghost invariant = { λ l. l.text.items ≡ lead (length l.text.items / 6) };
}

impl Lead {
    /// At the top.
    pub(crate) fn top(alloc: Global) -> Lead
        ensures { result ≡ 0 }
    {
        Lead {
            text: Vec::new(alloc),
        }
    }

    /// One deeper.
    pub(crate) fn deeper(&self, alloc: Global) -> Result<Lead, Memory>
        ensures { IfOk result (λ l. l ≡ self.now + 1) }
    {
        let text = deeper(alloc, &self.text)?;
        Ok(Lead { text })
    }

    /// Appends it.
    pub(crate) fn put(&self, text: &mut Vec<u8>) -> Result<(), Memory>
        ensures { OnOk result (text.new.items ≡ text.old.items ++ lead self.now) }
    {
        text.extend_from_slice(&self.text)
    }
}

/// Six bytes more before a lead: at the top two spaces and the arrow, else spaces.
fn deeper(alloc: Global, above: &[u8]) -> Result<Vec<u8>, Memory>
    ensures { IfOk result (λ text. text.items ≡ six_before above.now ++ above.now) }
{
    let six = if above.is_empty() {
        b"  ->  "
    } else {
        b"      "
    };
    let mut text = Vec::from_slice(alloc, six)?;
    text.extend_from_slice(above)?;
    Ok(text)
}
