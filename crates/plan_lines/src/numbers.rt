//! Numbers.

ghost use Rattle.std.specs.Prelude.{◌≡◌, ◌<◌, ◌^◌, ◌++◌, ℕ, IfSome, Some};
ghost use Rattle.std.specs.Fmt.{decimal};
ghost use Rattle.plan_lines.specs.work.Behind.{CutsNumber, GivesBehindNumber};

use crate::behind;
use certificate_text::LineCursor;

/// The number that a word is. None where it is none below 10^19.
fn number_of(word: &[u8]) -> Option<u64>
    ensures is { IfSome result (λ n. (n < 10 ^ 19) × (word.now ≡ decimal n)) }
    ensures only { (n : ℕ) → n < 10 ^ 19 → word.now ≡ decimal n → result ≡ Some n }
{
    let mut at = LineCursor::new(word);
    let number = at.number()?;
    if at.is_done() { Some(number) } else { None }
}

/// The number with which a text begins, and what stands behind it. None where it begins with none below 10^19.
pub(crate) fn read_number(text: &[u8]) -> Option<(u64, &[u8])>
    ensures is { IfSome result (λ p. (p.0 < 10 ^ 19) × (text.now ≡ decimal p.0 ++ p.1.now)) }
    ensures only { CutsNumber text.now result }
{
    let word = LineCursor::new(text).word();
    let number = number_of(word)?;
    let left = behind(text, word)?;
    Some((number, left))
}

/// What stands behind a number. None where a text does not begin with it.
pub fn behind_number(text: &[u8], n: u64) -> Option<&[u8]>
    ensures is { IfSome result (λ l. (n < 10 ^ 19) × (text.now ≡ decimal n ++ l.now)) }
    ensures only { GivesBehindNumber n text.now result }
{
    let (number, left) = read_number(text)?;
    if number == n { Some(left) } else { None }
}
