//! The limits of an index.

ghost use Rattle.std.specs.Prelude.{◌≡◌, List, drop, map, option_map, Ok, IfOk};
ghost use Rattle.pg_base.specs.declared.limits.TheConstants.{MOST_COLUMNS};
ghost use Rattle.pg_expr.specs.work.View.{cond};
ghost use Rattle.index_reader.specs.Meaning.{limited_names, name_tokens};
ghost use Rattle.index_reader.specs.work.Meaning.{limited_atoms};

use crate::keys::KeyRead;
use crate::names::NamedColumn;
use pg_base::{Code, Fault, Limit, MOST_ATOMS, MOST_COLUMNS, Memory};
use pg_expr::{Expr, ops};
use sql_grammar::fault_at;
use sql_lex::Token;
use std::alloc::Global;

/// The tokens of the columns' names, in order.
pub fn name_tokens_of(
    alloc: Global,
    keys: &[KeyRead],
    names: &[NamedColumn],
) -> Result<Vec<Token>, Memory>
    ensures { IfOk result (λ v. v.items ≡ name_tokens keys.now names.now) }
{
    let mut all = Vec::new(alloc);
    for key in keys {
        all.push(key.token)?;
    }
    for name in names {
        all.push(name.token)?;
    }
    Ok(all)
}

/// The limit of columns (54000): the first name too many is an error.
pub fn check_columns(names: &[Token]) -> Result<(), Fault>
    ensures { result ≡ limited_names (drop MOST_COLUMNS names.now) (Ok tt) }
{
    if names.len() > MOST_COLUMNS {
        return Err(fault_at(Code::S15(Limit::Columns), names[MOST_COLUMNS]));
    }
    Ok(())
}

/// The limit of atoms (54000), at the statement's first token.
pub fn check_atoms(start: Token, predicate: &Option<Expr>) -> Result<(), Fault>
    ensures { result ≡ limited_atoms start (option_map cond predicate.now) tt }
{
    match predicate {
        Some(e) if ops(e) > MOST_ATOMS as u64 => Err(fault_at(Code::S15(Limit::Atoms), start)),
        _ => Ok(()),
    }
}
