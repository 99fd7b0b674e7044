//! The lines of reasons.

ghost use Rattle.std.specs.Prelude.{◌≡◌, IfOk};
ghost use Rattle.check_reply.specs.Checked as texts;
ghost use Rattle.check_reply.specs.work.Checked as texts_work;

use pg_base::Memory;
use plan_check::Number;
use std::alloc::Global;

/// The text that a block is no certificate's text, with the first wrong line.
pub(crate) fn fault_text(alloc: Global, line: u32) -> Result<Vec<u8>, Memory>
    ensures { IfOk result (λ text. text.items ≡ texts.wrong_line_text line) }
{
    let text = format!(in alloc; "C1 line {line}")?;
    Ok(text.into_bytes())
}

/// An entry that is not as it says; entry 0 is the best plan.
pub(crate) fn bad_node_text(alloc: Global, entry: u32) -> Result<Vec<u8>, Memory>
    ensures { IfOk result (λ text. text.items ≡ texts.bad_node_text entry) }
{
    if entry == 0 {
        return Vec::from_slice(alloc, b"C2 best");
    }
    let text = format!(in alloc; "C2 entry {entry}")?;
    Ok(text.into_bytes())
}

/// A number of an entry that is not its own.
pub(crate) fn bad_number_text(
    alloc: Global,
    entry: u32,
    what: Number,
    printed: u64,
    own: u64,
) -> Result<Vec<u8>, Memory>
    ensures { IfOk result (λ text. text.items ≡ texts.bad_number_text entry what printed own) }
{
    let text = match what {
        Number::Startup => format!(in alloc; "C3 entry {entry} startup {printed} is {own}")?,
        Number::Total => format!(in alloc; "C3 entry {entry} cost {printed} is {own}")?,
        Number::Rows => format!(in alloc; "C3 entry {entry} rows {printed} is {own}")?,
    };
    Ok(text.into_bytes())
}

/// An entry, and the one that dominates it.
pub(crate) fn dominated_text(alloc: Global, entry: u32, by: u32) -> Result<Vec<u8>, Memory>
    ensures { IfOk result (λ text. text.items ≡ texts.dominated_text entry by) }
{
    let text = format!(in alloc; "C5 entry {entry} by {by}")?;
    Ok(text.into_bytes())
}

/// The price of the best plan, and the least one.
pub(crate) fn not_best_text(alloc: Global, printed: u64, own: u64) -> Result<Vec<u8>, Memory>
    ensures { IfOk result (λ text. text.items ≡ texts.not_best_text printed own) }
{
    let text = format!(in alloc; "C6 best {printed} least {own}")?;
    Ok(text.into_bytes())
}
