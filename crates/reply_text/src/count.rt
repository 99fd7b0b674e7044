//! The number of rows, as a line of bytes.

ghost use Rattle.std.specs.Prelude.{◌≡◌, IfOk};
ghost use Rattle.reply_text.specs.Texts.{count_line};

use pg_base::Memory;
use std::alloc::Global;

/// The line of the number of rows, ended by LF: `(1 row)`, else `(n rows)`. The only error is out of memory.
pub fn count_line(alloc: Global, n: u64) -> Result<Vec<u8>, Memory>
    ensures { IfOk result (λ line. line.items ≡ count_line n) }
{
    let text = if n == 1 {
        String::from_str(alloc, "(1 row)\n")?
    } else {
        format!(in alloc; "({n} rows)\n")?
    };
    Ok(text.into_bytes())
}
