//! White space and comments, which stand between words.

ghost use Rattle.std.specs.Prelude.{◌≤◌, ◌^◌, length, MatchOption};
ghost use Rattle.sql_lex.specs.Blanks.{HasNoBlank};
ghost use Rattle.sql_lex.specs.work.Cuts.{CutsBlank, CutsComment, IsNotClosed};

use crate::letters::{is_space, line_len, rest, stands_at};

/// How long a comment is after its `/*`, where it is closed. Comments nest.
fn comment_len(bytes: &[u8]) -> Option<usize>
    requires { length bytes.now ≤ 2 ^ 31 }
    ensures { MatchOption result (IsNotClosed bytes.now) (CutsComment bytes.now) }
{
    let mut open = 1u32;
    let mut at = 0;
    'marks: while at < bytes.len() {
        if stands_at(bytes, at, b"/*") {
            open += 1;
            at += 2;
        } else if stands_at(bytes, at, b"*/") {
            open -= 1;
            at += 2;
            if open == 0 {
                return Some(at);
            }
        } else {
            at += 1;
        }
    }
    None
}

/// How long the white space or the comment at the front is, where there is one.
pub fn blank_len(bytes: &[u8]) -> Option<usize>
    requires { length bytes.now ≤ 2 ^ 31 }
    ensures { MatchOption result (HasNoBlank bytes.now) (CutsBlank bytes.now) }
{
    if bytes.is_empty() {
        return None;
    }
    if is_space(bytes[0]) {
        return Some(1);
    }
    if stands_at(bytes, 0, b"--") {
        return Some(2 + line_len(rest(bytes, 2)));
    }
    if stands_at(bytes, 0, b"/*") {
        return match comment_len(rest(bytes, 2)) {
            Some(len) => Some(2 + len),
            None => None,
        };
    }
    None
}
