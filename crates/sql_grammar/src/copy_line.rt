//! The rest of a line after the `;` of a statement with data.

ghost use Rattle.std.specs.Prelude.{◌≡◌, ◌≤◌, ◌<◌, ◌^◌, length};
ghost use Rattle.sql_grammar.specs.CopyLine.{IsDataStart, is_blank as is_blank_byte};

use pg_base::Fault;

/// Whether a byte is a space, a tab or CR.
fn is_blank(byte: u8) -> bool
    ensures { result ≡ is_blank_byte byte }
{
    matches!(byte, b' ' | b'\t' | b'\r')
}

/// The offset of the first byte of a statement's data, where `from` is the offset after the statement's `;`. Only spaces,
/// tabs and CR may stand before the LF; any other byte there, or the text's end, is a syntax fault (42601) at that place.
pub fn data_start(text: &[u8], from: u32) -> Result<u32, Fault>
    requires from { from ≤ length text.now }
    requires short { length text.now ≤ 2 ^ 31 }
    ensures { IsDataStart text.now from result }
{
    let mut at = from;
    while (at as usize) < text.len() {
        let byte = text[at as usize];
        if byte == b'\n' {
            return Ok(at + 1);
        }
        if !is_blank(byte) {
            return Err(Fault::syntax(at));
        }
        at += 1;
    }
    Err(Fault::syntax(at))
}
