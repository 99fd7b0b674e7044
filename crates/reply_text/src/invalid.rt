//! The line of a certificate or of a plan that is not taken.

ghost use Rattle.std.specs.Prelude.{◌≡◌, IfOk};
ghost use Rattle.reply_text.specs.Texts.{invalid_line};

use pg_base::Memory;
use std::alloc::Global;

/// The line of a block that is not what it is given for, with the reason, ended by LF. The only error is out of memory.
pub fn invalid_line(alloc: Global, reason: &[u8]) -> Result<Vec<u8>, Memory>
    ensures { IfOk result (λ line. line.items ≡ invalid_line reason.now) }
{
    let mut line = Vec::from_slice(alloc, b"invalid: ")?;
    line.extend_from_slice(reason)?;
    line.extend_from_slice(b"\n")?;
    Ok(line)
}
