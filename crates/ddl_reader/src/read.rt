//! Reading a statement that defines a table, gives or finds statistics, or loads data.

ghost use Rattle.std.specs.Prelude.{◌≡◌, ◌≤◌, ◌<◌, ◌^◌, ℕ, length, true, IfOk, IfErr, Ok, MatchResult};
ghost use Rattle.sql_lex.specs.Words.{AreWords};
ghost use Rattle.sql_grammar.specs.Syntax.{Statement, copy as copy_tree};
ghost use Rattle.sql_grammar.specs.Words.{words_of};
ghost use Rattle.sql_grammar.specs.Faults.{terminals};
ghost use Rattle.sql_grammar.specs.work.Faults.{IsWhole};
ghost use Rattle.ddl_reader.specs.work.Statements.{opens_ddl, begins_ddl, begins_index, IsMeaning, IsDdlRefusal};
ghost use Rattle.ddl_reader.specs.work.Readings.{reading, ReadsAs, IsSyntaxRefusal, AreOfCopy, IfCopy, IsLastEnd};
ghost use Rattle.ddl_reader.specs.work.Soundness.{IsSound};

use crate::analysis::analysis;
use crate::copy::copy;
use crate::ddl::Read;
use crate::statistics::statistics;
use crate::table::table;
use crate::words::word_fault;
use catalog::Catalog;
use expr_reader::Cursor;
use pg_base::{Code, Refusal};
use sql_grammar::{Class, Free, Word, data_start, statement_fault};
use sql_lex::Tokens;
use std::alloc::Global;

/// Where the last token ends.
fn last_end(text: &[u8], tokens: &Tokens) -> u32
    requires words { (from : ℕ) × AreWords text.now from tokens.now }
    ensures last { IsLastEnd tokens.now result }
    ensures within { result ≤ length text.now }
{
    tokens.end()
}

/// COPY. The rest of its line comes first.
fn data(
    alloc: Global,
    cat: &Catalog,
    text: &[u8],
    tokens: &Tokens,
    from: &mut Cursor,
) -> Result<Read, Refusal>
    requires short { length text.now ≤ 2 ^ 31 }
    requires words { (from : ℕ) × AreWords text.now from tokens.now }
    requires all { from.old ≡ terminals text.now tokens.now }
    requires copy { AreOfCopy from.old }
    ensures { IfCopy from.old (λ k n null. ReadsAs cat.now text.now (copy_tree k n null) result) }
{
    let start = data_start(text, last_end(text, tokens))?;
    copy(alloc, cat, start, from)
}

/// The statement of these tokens, whose syntax has no fault.
fn statement(alloc: Global, cat: &Catalog, text: &[u8], tokens: &Tokens) -> Result<Read, Refusal>
    requires short { length text.now ≤ 2 ^ 31 }
    requires words { (from : ℕ) × AreWords text.now from tokens.now }
    requires tree { (x : Statement) × (words_of x ≡ terminals text.now tokens.now) }
    requires opens { begins_ddl (terminals text.now tokens.now) ≡ true }
    ensures { (x : Statement) → words_of x ≡ terminals text.now tokens.now →
        ReadsAs cat.now text.now x result }
{
    let mut from = Cursor::new(text, tokens, 0);
    if from.takes(Word::Create) {
        from.skip(1);
        return table(alloc, &mut from);
    }
    if from.takes_free(Free::Statistics) {
        return statistics(alloc, cat, &mut from);
    }
    if from.takes_free(Free::Analyze) {
        return analysis(alloc, cat, &mut from);
    }
    data(alloc, cat, text, tokens, &mut from)
}

/// Whether a word of this class is CREATE, COPY, STATISTICS or ANALYZE.
fn opens(class: Class) -> bool
    ensures { result ≡ opens_ddl class }
{
    match class {
        Class::Key(Word::Create) => true,
        Class::Name(Some(Free::Copy | Free::Statistics | Free::Analyze)) => true,
        _ => false,
    }
}

/// Whether the statement of these tokens begins with CREATE INDEX.
pub fn is_index(text: &[u8], tokens: &Tokens) -> bool
    requires short { length text.now ≤ 2 ^ 31 }
    requires words { (from : ℕ) × AreWords text.now from tokens.now }
    ensures { result ≡ begins_index (terminals text.now tokens.now) }
{
    let mut from = Cursor::new(text, tokens, 0);
    if !from.takes(Word::Create) {
        return false;
    }
    from.takes_free(Free::Index)
}

/// Whether the statement of these tokens begins with CREATE, but not with CREATE INDEX, with COPY, with STATISTICS or with ANALYZE.
pub fn is_ddl(text: &[u8], tokens: &Tokens) -> bool
    requires short { length text.now ≤ 2 ^ 31 }
    requires words { (from : ℕ) × AreWords text.now from tokens.now }
    ensures { result ≡ begins_ddl (terminals text.now tokens.now) }
{
    if is_index(text, tokens) {
        return false;
    }
    let from = Cursor::new(text, tokens, 0);
    match from.peek() {
        Some(class) => opens(class),
        None => false,
    }
}

/// The first fault of the syntax: CREATE INDEX or another first word than CREATE, COPY, STATISTICS or ANALYZE (42601), or what
/// the grammar refuses (42601, 54000).
fn check_syntax(text: &[u8], tokens: &Tokens) -> Result<(), Refusal>
    requires short { length text.now ≤ 2 ^ 31 }
    requires words { (from : ℕ) × AreWords text.now from tokens.now }
    ensures { MatchResult result
        (λ _. IsWhole text.now tokens.now × (begins_ddl (terminals text.now tokens.now) ≡ true))
        (IsSyntaxRefusal text.now tokens.now (begins_ddl (terminals text.now tokens.now))) }
{
    if !is_ddl(text, tokens) {
        return Err(word_fault(Code::S1, tokens.items()[0]));
    }
    match statement_fault(text, tokens, 0) {
        Some(fault) => Err(Refusal::Fault(fault)),
        None => Ok(()),
    }
}

/// Reads the statement of these tokens: its value, bound to the catalogue, or its first fault.
///
/// CREATE INDEX, and another first word than CREATE, COPY, STATISTICS or ANALYZE, is a fault (42601) at the first word. Faults
/// of syntax come first (42601, 54000), for COPY
/// those of the rest of its line included. Then names and literals bind from the left: an unknown type (42704), an unknown
/// table (42P01) and an unknown column (42703) at the word, a text for NULL other than `\N` (22023) at that text. A literal of
/// STATISTICS that gives no value to the column is wrong at its first byte, a `-` included: 22003, 22P02 or 42804, and 22023
/// for NULL. Then comes the limit of 32 columns (54000), at the first name too many.
///
/// What the catalogue refuses is not asked here, but what is read may be handed to it: names are names, each of the 1 to 32
/// columns has one; the table of COPY, STATISTICS and ANALYZE is there, and so is the column, and each value is of its type and is not
/// NULL. `at` has an offset for each place that the catalogue counts, however many literals are given. The text has at most
/// 2^31 bytes, and the tokens are the words of a statement from some offset of it. The refusal is `Memory` only of a statement
/// that begins so and whose syntax has no fault, that of the rest of COPY's line included.
pub fn read_ddl(alloc: Global, cat: &Catalog, text: &[u8], tokens: &Tokens) -> Result<Read, Refusal>
    requires short { length text.now ≤ 2 ^ 31 }
    requires words { (from : ℕ) × AreWords text.now from tokens.now }
    ensures read { IfOk result (λ r. IsMeaning cat.now text.now tokens.now (Ok (reading r))) }
    ensures sound { IfOk result (λ r. IsSound cat.now text.now (reading r)) }
    ensures refused { IfErr result (IsDdlRefusal cat.now text.now tokens.now) }
{
    cat.lawful();
    check_syntax(text, tokens)?;
    statement(alloc, cat, text, tokens)
}
