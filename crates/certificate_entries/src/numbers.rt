//! Numbers of entries.

ghost use Rattle.std.specs.Prelude.{◌≡◌, option_map};
ghost use Rattle.std.specs.Fmt.{decimal};
ghost use Rattle.certificate_text.specs.plan_check_Views.{side};
ghost use Rattle.certificate_text.specs.HasText.{IsEntryNumber};
ghost use Rattle.certificate_text.specs.Texts.{side_text};
ghost use Rattle.certificate_entries.specs.work.Parts.{HasSideText, Reads, as_entry};

use certificate_text::LineCursor;
use certificate_text::plan_check::Side;

/// A number as one of an entry. None where it is too large.
fn as_entry(n: Option<u64>) -> Option<u32>
    ensures { result ≡ as_entry n }
{
    match n {
        Some(n) if n < 4_294_967_296 => Some(n as u32),
        _ => None,
    }
}

/// The number of an entry.
pub fn read_entry_number(at: &mut LineCursor) -> Option<u32>
    ensures only { Reads IsEntryNumber decimal at.old at.new result }
{
    as_entry(at.number())
}

/// An entry by its number, as it stands or sorted.
pub fn read_side(at: &mut LineCursor) -> Option<Side>
    ensures only { Reads HasSideText side_text at.old at.new (option_map side result) }
{
    let sort = at.eat(b"sort ");
    let entry = read_entry_number(at)?;
    Some(Side { sort, entry })
}
