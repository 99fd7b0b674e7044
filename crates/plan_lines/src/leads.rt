//! What stands before the title of a line.

ghost use Rattle.std.specs.Prelude.{◌≡◌, ◌++◌, ℕ, List, IfSome, replicate, true};
ghost use Rattle.certificate_entries.specs.explain_Texts.{lead};
ghost use Rattle.plan_lines.specs.work.Behind.{GivesBehind, HasSpaces};

/// Whether a text begins with so many spaces.
fn has_spaces(text: &[u8], count: usize) -> bool
    ensures yes { result ≡ true → HasSpaces count text.now }
    ensures no { (x : List ℕ) → text.now ≡ replicate count 32 ++ x → result ≡ true }
{
    text.len() >= count && text[..count].iter().all(|b| *b == b' ')
}

/// What stands behind the lead of a line at a depth. None where a text does not begin with it.
pub fn behind_lead(text: &[u8], depth: u8) -> Option<&[u8]>
    ensures is { IfSome result (λ l. text.now ≡ lead depth ++ l.now) }
    ensures only { GivesBehind (lead depth) text.now result }
{
    if depth == 0 {
        return Some(text);
    }
    let spaces = 6 * depth as usize - 4;
    if !has_spaces(text, spaces) {
        return None;
    }
    text[spaces..].strip_prefix(b"->  ")
}
