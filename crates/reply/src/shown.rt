//! The text of a plan that a query is answered by.

ghost use Rattle.std.specs.Prelude.{◌≡◌, IfOk};
ghost use Rattle.explain.specs.Texts.{explained_text, window_line};
ghost use Rattle.plan_tree.specs.Least.{IsAdmissible};
ghost use Rattle.plan_tree.specs.work.Paths.{IsFinishedPath};
ghost use Rattle.plan_tree.specs.work.Views.{path};
ghost use Rattle.sql_query.specs.WellBound.{IsWellBound};

use crate::price::best_price;
use catalog::Catalog;
use explain::{limit_text, plan_text};
use pg_base::Memory;
use plan_tree::{Path, asked};
use sql_query::Prepared;
use std::alloc::Global;

/// The line of LIMIT and OFFSET for a finished plan, with its price; nothing where the query has no window.
fn window_text(alloc: Global, cat: &Catalog, q: &Prepared, best: &Path) -> Result<Vec<u8>, Memory>
    requires finished { IsFinishedPath cat.now q.now (path best.now) }
    requires admissible { IsAdmissible cat.now q.now (path best.now).tree }
    ensures { IfOk result (λ text. text.items ≡ window_line cat.now q.now (path best.now).tree) }
{
    let Some(w) = q.window else {
        return Ok(Vec::new(alloc));
    };
    let price = best_price(cat, q, best);
    let line = limit_text(alloc, q, price, best.rows, asked(w, best.rows))?;
    Vec::from_slice(alloc, line.items())
}

/// The text of a finished plan, behind the line of LIMIT and OFFSET where the query has one of them.
pub fn shown_text(
    alloc: Global,
    cat: &Catalog,
    q: &Prepared,
    best: &Path,
) -> Result<Vec<u8>, Memory>
    requires bound { IsWellBound cat.now q.now }
    requires finished { IsFinishedPath cat.now q.now (path best.now) }
    requires admissible { IsAdmissible cat.now q.now (path best.now).tree }
    ensures { IfOk result (λ text.
        text.items ≡ explained_text cat.now q.now (path best.now).tree) }
{
    let mut text = window_text(alloc, cat, q, best)?;
    let lines = plan_text(alloc, cat, q, best)?;
    text.extend_from_slice(lines.items())?;
    Ok(text)
}
