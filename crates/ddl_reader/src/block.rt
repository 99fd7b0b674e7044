//! Where a data block ends.

ghost use Rattle.std.specs.Prelude.{◌≡◌, ◌<◌, ◌≤◌, ◌^◌, ◌∷◌, length, take, drop, MatchOption};
ghost use Rattle.ddl_reader.specs.Block.{lines_of, is_mark as is_mark_line, HaveNoMark, IsBlockEnd};

/// The bytes from a place on.
fn rest(text: &[u8], at: usize) -> &[u8]
    requires { at ≤ length text.now }
    ensures { result.now ≡ drop at text.now }
{
    &text[at..]
}

/// The length of the first line, with its LF.
fn line_len(text: &[u8]) -> usize
    requires { 0 < length text.now }
    ensures some { 0 < result }
    ensures within { result ≤ length text.now }
    ensures cut { lines_of text.now ≡ take result text.now ∷ lines_of (drop result text.now) }
{
    for (n, byte) in text.iter().enumerate() {
        if *byte == b'\n' {
            return n + 1;
        }
    }
    text.len()
}

/// Whether a line is exactly `\.`.
fn is_mark(line: &[u8]) -> bool
    ensures { result ≡ is_mark_line line.now }
{
    line == b"\\.\n".as_slice() || line == b"\\.\r\n".as_slice() || line == b"\\.".as_slice()
}

/// The end of the data block that begins at the byte offset `start`, and the offset after the line `\.` that ends it
/// (PostgreSQL manual, COPY). The first line that is exactly `\.` ends the data, inside quotes too. A CR before its LF is not
/// counted. The text's last line may be without LF; a CR at its end is then a byte of it. None where no line from `start` on
/// is `\.`. It takes no memory.
pub fn block_end(text: &[u8], start: u32) -> Option<(u32, u32)>
    requires short { length text.now ≤ 2 ^ 31 }
    requires start { start ≤ length text.now }
    ensures { MatchOption result (HaveNoMark (lines_of (drop start text.now)))
        (λ e. IsBlockEnd text.now start e.0 e.1) }
{
    let mut at = start as usize;
    while at < text.len() {
        let lines = rest(text, at);
        let len = line_len(lines);
        if is_mark(&lines[..len]) {
            return Some((at as u32, (at + len) as u32));
        }
        at += len;
    }
    None
}
