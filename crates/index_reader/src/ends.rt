//! Where the parts of ADVISE end.

ghost use Rattle.std.specs.Prelude.{◌^◌, ◌≤◌, ℕ, length};
ghost use Rattle.sql_lex.specs.Words.{AreWords};
ghost use Rattle.index_reader.specs.work.Walk.{StandsCand, IsEndOfCand, StandsWindowed, IsEndOfWindowed};

use sql_grammar::{cand_end, one_candidate, one_windowed_select, windowed_select_end};
use sql_lex::Tokens;

/// The number of the token behind the candidate that stands from token `first` on.
pub(crate) fn end_of_candidate(text: &[u8], tokens: &Tokens, first: u32) -> u32
    requires short { length text.now ≤ 2 ^ 31 }
    requires words { (from : ℕ) × AreWords text.now from tokens.now }
    requires there { StandsCand text.now tokens.now first }
    ensures { IsEndOfCand text.now tokens.now first result }
{
    one_candidate();
    match cand_end(text, tokens, first) {
        Ok(end) => end,
        Err(_) => unreachable!(),
    }
}

/// The number of the token behind the SELECT with its order and its window that stands from token `first` on.
pub(crate) fn end_of_select(text: &[u8], tokens: &Tokens, first: u32) -> u32
    requires short { length text.now ≤ 2 ^ 31 }
    requires words { (from : ℕ) × AreWords text.now from tokens.now }
    requires there { StandsWindowed text.now tokens.now first }
    ensures { IsEndOfWindowed text.now tokens.now first result }
{
    one_windowed_select();
    match windowed_select_end(text, tokens, first) {
        Ok(end) => end,
        Err(_) => unreachable!(),
    }
}
