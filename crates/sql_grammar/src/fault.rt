//! Faults at tokens.

ghost use Rattle.std.specs.Prelude.{◌≡◌};
ghost use Rattle.sql_grammar.specs.Faults.{fault_at as fault_at_token};

use pg_base::{Code, Fault};
use sql_lex::Token;

/// The fault of this kind at a token, with its words. A syntax fault (42601) names no words.
pub fn fault_at(code: Code, token: Token) -> Fault
    ensures { result ≡ fault_at_token code token }
{
    match code {
        Code::S1 => Fault::syntax(token.start),
        _ => Fault::at_words(code, token.start, token.end),
    }
}
