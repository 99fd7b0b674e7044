//! The limits of a token by itself.

ghost use Rattle.std.specs.Prelude.{◌≡◌, length};
ghost use Rattle.sql_grammar.specs.Reading.{value_of_quoted, terminal_of};
ghost use Rattle.sql_grammar.specs.work.Reading.{IsWithin};
ghost use Rattle.sql_grammar.specs.Faults.{limit_of};

use pg_base::{Limit, MOST_NAME_BYTES, MOST_TEXT_BYTES};
use sql_lex::{Kind, Token};

/// The length of a quoted text's value, in bytes: a quote that stands twice counts once.
fn text_len(bytes: &[u8]) -> usize
    ensures { result ≡ length (value_of_quoted bytes.now) }
{
    if bytes.len() < 2 {
        return 0;
    }
    let inside = &bytes[1..bytes.len() - 1];
    let mut len = 0;
    let mut second = false;
    for byte in inside {
        if second {
            second = false;
        } else {
            len += 1;
            second = *byte == b'\'';
        }
    }
    len
}

/// The limit that a token of this text is past: more bytes of a name than `MOST_NAME_BYTES`, or of a quoted text's value than
/// `MOST_TEXT_BYTES`.
pub fn limit_passed(text: &[u8], token: Token) -> Option<Limit>
    requires { IsWithin text.now token }
    ensures { result ≡ limit_of (terminal_of text.now token) }
{
    let bytes = &text[token.start as usize..token.end as usize];
    match token.kind {
        Kind::Word if bytes.len() > MOST_NAME_BYTES => Some(Limit::Name),
        Kind::Quoted if text_len(bytes) > MOST_TEXT_BYTES => Some(Limit::Text),
        _ => None,
    }
}
