//! The faults of definitions that are not carried out, with their places.

ghost use Rattle.std.specs.Prelude.{◌≡◌, ◌≤◌, ◌+◌, ◌^◌, ◌<◌, ◌∷◌, All, IfOk, length};
ghost use Rattle.pg_base.specs.Names.{IsName};
ghost use Rattle.index_reader.specs.Places.{end_of_word as end_of_word_at, word_fault};
ghost use Rattle.statements.specs.work.Ending.{IsCauseFor, IsNumberAmong, IsPlaceAmong, end_by};
ghost use Rattle.statements.specs.Faults.{endless_fault, index_fault, number_fault, rows_fault, table_fault, word_ends as ends_of_words};

use crate::end::End;
use catalog::CatalogFault;
use heap::CopyFault;
use pg_base::{Code, Fault, Limit, Memory, TableNo};
use pg_value::Bytes;
use sql_lex::{Token, Tokens};
use std::alloc::Global;

/// Where the words end that begin at these offsets: a new table's name, and those of its columns.
pub(crate) fn word_ends(
    alloc: Global,
    at: &[u32],
    name: &Bytes,
    names: &[Bytes],
) -> Result<Vec<u32>, Memory>
    requires places { length at.now ≡ length names.now + 1 }
    requires within { All (λ a. a ≤ 2 ^ 31) at.now }
    requires name { IsName name.now }
    requires names { All IsName names.now }
    ensures { IfOk result (λ ends. ends.items ≡ ends_of_words at.now (name.now ∷ names.now)) }
{
    let mut ends = Vec::new(alloc);
    ends.push(at[0] + name.items().len() as u32)?;
    for n in 0..names.len() {
        ends.push(at[n + 1] + names[n].items().len() as u32)?;
    }
    Ok(ends)
}

/// How the refusal of a table ends its step, whose words begin and end at these offsets: with its fault at the new name or at
/// the repeated column's. It is one that the catalogue gives for a table of so many words.
pub(crate) fn refused_table(refused: CatalogFault, at: &[u32], ends: &[u32]) -> End
    requires some { 0 < length at.now }
    requires ends { length ends.now ≡ length at.now }
    requires cause { IsCauseFor refused (length at.now) }
    ensures { result ≡ end_by (table_fault refused at.now ends.now) }
{
    let fault = match refused {
        CatalogFault::NameTaken => Fault::at_words(Code::S5, at[0], ends[0]),
        CatalogFault::ColumnTwice(place) => {
            let word = place as usize + 1;
            Fault::at_words(Code::S6, at[word], ends[word])
        }
        CatalogFault::TooMany => Fault::at_words(Code::S15(Limit::Tables), at[0], ends[0]),
        CatalogFault::BadNumber(_) => unreachable!(),
        CatalogFault::Memory => return End::Memory,
    };
    End::Fault(fault)
}

/// Where the word ends that begins at a byte offset; the offset itself where none does.
fn end_of_word(tokens: &[Token], at: u32) -> u32
    ensures { result ≡ end_of_word_at tokens.now at }
{
    for token in tokens {
        if token.start == at {
            return token.end;
        }
    }
    at
}

/// A fault at the word that begins at a byte offset.
fn at_word(code: Code, tokens: &Tokens, at: u32) -> Fault
    ensures { result ≡ word_fault code tokens.now at }
{
    Fault::at_words(code, at, end_of_word(tokens.items(), at))
}

/// How the refusal of an index ends its step, whose name and columns begin at these offsets, and its access method at `method`:
/// with its fault at the new name, at the repeated column, or, where a hash index is not of its form, at the method.
pub(crate) fn refused_index(refused: CatalogFault, at: &[u32], method: u32, tokens: &Tokens) -> End
    requires some { 0 < length at.now }
    requires place { IsPlaceAmong refused (length at.now) }
    ensures { result ≡ end_by (index_fault refused at.now method tokens.now) }
{
    let fault = match refused {
        CatalogFault::NameTaken => at_word(Code::S5, tokens, at[0]),
        CatalogFault::ColumnTwice(place) => at_word(Code::S6, tokens, at[place as usize + 1]),
        CatalogFault::TooMany => at_word(Code::S15(Limit::Indexes), tokens, at[0]),
        CatalogFault::BadNumber(_) => at_word(Code::S17, tokens, method),
        CatalogFault::Memory => return End::Memory,
    };
    End::Fault(fault)
}

/// How the refusal of statistics ends its step, whose numbers and literals begin at the offsets of `at`: with its fault at the
/// first of them that is not allowed.
pub(crate) fn refused_statistics(refused: CatalogFault, at: &[u32]) -> End
    requires cause { IsNumberAmong refused (length at.now) }
    ensures { result ≡ end_by (number_fault refused at.now) }
{
    match refused {
        CatalogFault::BadNumber(place) => {
            let here = at[place as usize];
            End::Fault(Fault::at_words(Code::S17, here, here))
        }
        CatalogFault::NameTaken
        | CatalogFault::ColumnTwice(_)
        | CatalogFault::TooMany
        | CatalogFault::Memory => unreachable!(),
    }
}

/// The fault of COPY data that no line ends.
pub(crate) fn endless(start: u32) -> Fault
    ensures { result ≡ endless_fault start }
{
    Fault::in_data(Code::S13, start, 0, TableNo(0), 0)
}

/// How the refusal of COPY data for a table, from the byte offset `start` on, ends its step.
pub(crate) fn refused_data(refused: CopyFault, table: TableNo, start: u32) -> End
    ensures { result ≡ end_by (rows_fault refused table start) }
{
    let fault = match refused {
        CopyFault::Arity { rec } => Fault::in_data(Code::S13, start, rec, table, 0),
        CopyFault::Range { rec, col } => Fault::in_data(Code::S11, start, rec, table, col.0),
        CopyFault::Invalid { rec, col } => Fault::in_data(Code::S12, start, rec, table, col.0),
        CopyFault::IsNull { rec, col } => Fault::in_data(Code::S14, start, rec, table, col.0),
        CopyFault::TooLong { rec, col } => {
            Fault::in_data(Code::S15(Limit::Text), start, rec, table, col.0)
        }
        CopyFault::TooMany { rec } => {
            Fault::in_data(Code::S15(Limit::Rows), start, rec, table, 0)
        }
        CopyFault::Memory => return End::Memory,
    };
    End::Fault(fault)
}
