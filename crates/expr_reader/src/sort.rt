//! The direction of a column of an order, and the end at which its NULLs stand.

ghost use Rattle.std.specs.Prelude.{◌≤◌, length};
ghost use Rattle.sql_grammar.specs.Words.{words_of_direction, words_of_nulls_end};
ghost use Rattle.expr_reader.specs.Sorts.{is_descending, has_nulls_first};
ghost use Rattle.expr_reader.specs.work.Sorts.{ends_direction, ends_nulls_end};
ghost use Rattle.expr_reader.specs.work.Reading.{Yields};

use crate::cursor::Cursor;
use sql_grammar::{Free, Word};

/// Whether DESC is next. It is taken, and so is ASC.
pub fn descending(from: &mut Cursor) -> bool
    ensures read { Yields words_of_direction ends_direction is_descending from.old result from.new }
    ensures ahead { length from.new ≤ length from.old }
{
    if from.takes(Word::Desc) {
        return true;
    }
    if from.takes(Word::Asc) {
        return false;
    }
    false
}

/// Whether NULL stands before all values: where neither NULLS FIRST nor NULLS LAST is next, NULL is the greatest one.
pub fn nulls_first(from: &mut Cursor, descending: bool) -> bool
    ensures read { Yields words_of_nulls_end ends_nulls_end (has_nulls_first descending)
        from.old result from.new }
    ensures ahead { length from.new ≤ length from.old }
{
    if !from.takes_free(Free::Nulls) {
        return descending;
    }
    if from.takes_free(Free::First) {
        return true;
    }
    from.skip(1);
    false
}
