//! The lines of a block.

ghost use Rattle.std.specs.Prelude.{◌≡◌, ◌<◌, ◌≤◌, ◌+◌, ℕ, List, IfNone, IfSome, None, length};
ghost use Rattle.plan_lines.specs.work.Parts.{IsShallow};
ghost use Rattle.plan_lines.specs.work.Behind.{CutsAt, GivesLine, IsFirstPlace};

use crate::leads::behind_lead;
use std::marker::Model;

/// Where a byte stands first in a text; the text's length where it stands nowhere.
fn find(text: &[u8], b: u8) -> usize
    ensures within { result ≤ length text.now }
    ensures only { IsFirstPlace b text.now result }
{
    for n in 0..text.len() {
        if text[n] == b {
            return n;
        }
    }
    text.len()
}

/// The parts of a text before the first of a byte and behind it. None where it stands nowhere.
pub fn cut(text: &[u8], b: u8) -> Option<(&[u8], &[u8])>
    ensures only { CutsAt b text.now result }
    ensures less { IfSome result (λ p. length p.1.now < length text.now) }
{
    let end = find(text, b);
    if end < text.len() {
        Some((&text[..end], &text[end + 1..]))
    } else {
        None
    }
}

/// The lines of a block that are left. Contracts see their bytes.
#[derive(Drop)]
pub struct Lines<'a> {
    left: &'a [u8],
}

impl<'a> Model for Lines<'a> {
    ghost use Rattle.std.specs.Prelude.{List, ℕ};

    ghost Value = { List ℕ };

    ghost view = { λ l. l.left.now };
}

impl<'a> Lines<'a> {
    /// All lines of a block.
    pub fn new(block: &'a [u8]) -> Lines<'a>
        ensures { result ≡ block.now }
    {
        Lines { left: block }
    }

    /// The next line, without its lead and its end, where it stands at a depth; it is passed over. None where none does, and
    /// nothing is passed over.
    pub fn next_at(&mut self, depth: u8) -> Option<&'a [u8]>
        ensures only { GivesLine depth self.old self.new result }
        ensures shallow { (d : ℕ) → depth ≡ d + 1 → IsShallow d self.old → result ≡ None }
        ensures left { IfNone result (self.new ≡ self.old) }
        ensures less { IfSome result (λ l. length self.new < length self.old) }
    {
        let text = behind_lead(self.left, depth)?;
        let (line, rest) = cut(text, b'\n')?;
        self.left = rest;
        Some(line)
    }
}
