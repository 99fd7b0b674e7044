//! The condition of an index.

ghost use Rattle.std.specs.Prelude.{IfOk, option_map};
ghost use Rattle.pg_expr.specs.work.View.{cond};
ghost use Rattle.sql_grammar.specs.Words.{words_of_where};
ghost use Rattle.catalog.specs.Contents.{table_at};
ghost use Rattle.catalog.specs.Indexes.{IsPredicateOf};
ghost use Rattle.expr_reader.specs.work.Reads.{Reads};
ghost use Rattle.query_reader.specs.work.Ends.{ends_where};
ghost use Rattle.index_reader.specs.Meaning.{condition_bound};
ghost use Rattle.expr_reader.specs.work.Reading.{StandsFirst, IfFirst};

use crate::table_scope::TableScope;
use expr_reader::{Cursor, take_expr};
use pg_base::Refusal;
use pg_expr::{Expr, push_not};
use sql_grammar::Word;
use std::alloc::Global;

/// The condition after WHERE, in pushed form; None where it is not next.
pub fn predicate(
    alloc: Global,
    scope: &TableScope,
    from: &mut Cursor,
) -> Result<Option<Expr>, Refusal>
    requires { StandsFirst words_of_where ends_where from.old }
    ensures { IfFirst words_of_where ends_where from.old (λ w rest.
        Reads (option_map cond) (condition_bound scope.now w) rest result from.new) }
{
    if !from.takes(Word::Where) {
        return Ok(None);
    }
    let condition = take_expr(alloc, scope, from)?;
    Ok(Some(push_not(alloc, condition)?))
}
