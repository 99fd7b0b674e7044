//! Reading a statement for CREATE INDEX.

ghost use Rattle.std.specs.Prelude.{◌≡◌, ◌^◌, ◌<◌, ◌≤◌, ℕ, List, [], ◌∷◌, length, true, IfOk, IfErr, Ok};
ghost use Rattle.sql_lex.specs.Ends.{token_at};
ghost use Rattle.sql_lex.specs.Words.{AreWords};
ghost use Rattle.sql_lex.specs.declared.tokens.Token.{Token};
ghost use Rattle.sql_grammar.specs.Faults.{terminals};
ghost use Rattle.sql_grammar.specs.Syntax.{Cand};
ghost use Rattle.expr_reader.specs.work.Reads.{Reads};
ghost use Rattle.ddl_reader.specs.work.Statements.{begins_index};
ghost use Rattle.index_reader.specs.work.Candidates.{HaveCand, IsCandAt};
ghost use Rattle.index_reader.specs.Meaning.{meaning_of_cand};
ghost use Rattle.index_reader.specs.work.Reads.{index_meant};
ghost use Rattle.index_reader.specs.work.Soundness.{IsSound};
ghost use Rattle.index_reader.specs.work.Statements.{IsCandRefusal, IsIndexMeaning, IsCreateRefusal};

use crate::index::{ReadIndex, index};
use catalog::Catalog;
use expr_reader::Cursor;
use pg_base::Refusal;
use sql_grammar::statement_fault;
use sql_lex::{Token, Tokens};
use std::alloc::Global;

/// The statement's first token.
fn first_token(tokens: &Tokens) -> Token
    requires { 0 < length tokens.now }
    ensures { result ≡ token_at tokens.now 0 }
{
    tokens.items()[0]
}

/// The candidate for an index between two tokens of a statement, read as a whole.
fn cand(
    alloc: Global,
    cat: &Catalog,
    text: &[u8],
    tokens: &Tokens,
    first: u32,
    end: u32,
) -> Result<ReadIndex, Refusal>
    requires short { length text.now ≤ 2 ^ 31 }
    requires words { (from : ℕ) × AreWords text.now from tokens.now }
    requires part { HaveCand text.now tokens.now first end }
    ensures meaning { (x : Cand) (start : Token) (later : List Token) → tokens.now ≡ start ∷ later →
        IsCandAt text.now tokens.now first end x → Reads index_meant (meaning_of_cand cat.now start x) [] result [] }
    ensures sound { IfOk result (λ r. IsSound cat.now text.now (index_meant r)) }
{
    cat.lawful();
    let mut from = Cursor::part(text, tokens, first, end);
    index(alloc, cat, first_token(tokens), &mut from)
}

/// Reads the CREATE INDEX of these tokens: its value, bound to the catalogue, or its first fault.
///
/// Faults of syntax come first (42601, 54000). Then names bind from the left: an unknown table (42P01), an unknown access
/// method (42704), then for each key column an unknown one (42703) and an operator class that is unknown or that the method has
/// not (42704), or that does not accept the column's type (42804), each at its word; then an unknown column of INCLUDE (42703).
/// Then the condition binds over the table's columns, which the table's name qualifies too, with the faults of
/// `expr_reader::take_expr`. Then comes the limit of columns (54000, [`MOST_COLUMNS`](pg_base::MOST_COLUMNS)) at the first name
/// too many, then that of 256 atoms of the condition (54000) at the statement's first word.
///
/// Without USING the method is btree; without an operator class it is that of the type's default family. DESC alone puts NULLs
/// first, and otherwise they are last unless said. The condition is in pushed form, and its columns are those of relation 0.
/// What the catalogue refuses is not asked here, but what is read may be passed to `Catalog::add_index`, and `at` has an offset
/// for each place that it counts. The text has at most 2^31 bytes, and the tokens are the words of a statement from some offset
/// of it, of which the first two are CREATE INDEX. The refusal is `Memory` only of one whose syntax has no fault.
pub fn read_index(
    alloc: Global,
    cat: &Catalog,
    text: &[u8],
    tokens: &Tokens,
) -> Result<ReadIndex, Refusal>
    requires short { length text.now ≤ 2 ^ 31 }
    requires words { (from : ℕ) × AreWords text.now from tokens.now }
    requires opens { begins_index (terminals text.now tokens.now) ≡ true }
    ensures read { IfOk result (λ r. IsIndexMeaning cat.now text.now tokens.now (Ok (index_meant r))) }
    ensures sound { IfOk result (λ r. IsSound cat.now text.now (index_meant r)) }
    ensures refused { IfErr result (IsCreateRefusal cat.now text.now tokens.now) }
{
    match statement_fault(text, tokens, 0) {
        Some(fault) => Err(Refusal::Fault(fault)),
        None => cand(alloc, cat, text, tokens, 2, tokens.items().len() as u32 - 1),
    }
}

/// Reads the candidate for an index that is the tokens from number `first` up to, but not including, number `end` of a
/// statement without a fault of the grammar: the text of CREATE INDEX behind its first two words, without its end. It is bound
/// as [`read_index`] binds one, with the same refusals but for those of the grammar. The limit of atoms stands at the first
/// word of the whole statement.
pub fn read_cand(
    alloc: Global,
    cat: &Catalog,
    text: &[u8],
    tokens: &Tokens,
    first: u32,
    end: u32,
) -> Result<ReadIndex, Refusal>
    requires short { length text.now ≤ 2 ^ 31 }
    requires words { (from : ℕ) × AreWords text.now from tokens.now }
    requires part { HaveCand text.now tokens.now first end }
    ensures read { (x : Cand) (start : Token) (later : List Token) → tokens.now ≡ start ∷ later →
        IsCandAt text.now tokens.now first end x → IfOk result (λ r. meaning_of_cand cat.now start x ≡ Ok (index_meant r)) }
    ensures sound { IfOk result (λ r. IsSound cat.now text.now (index_meant r)) }
    ensures refused { (x : Cand) (start : Token) (later : List Token) → tokens.now ≡ start ∷ later →
        IsCandAt text.now tokens.now first end x → IfErr result (IsCandRefusal (meaning_of_cand cat.now start x)) }
{
    cand(alloc, cat, text, tokens, first, end)
}
