//! The relations whose rows a scan is given, read by their aliases.

ghost use Rattle.std.specs.Prelude.{◌≤◌, length};
ghost use Rattle.pg_base.specs.Sets.{has};
ghost use Rattle.sql_query.specs.WellBound.{IsWellBound};
ghost use Rattle.certificate_entries.specs.certificate_text_HasText.{IsSetOf};
ghost use Rattle.plan_lines.specs.work.Words.{ReadsListed};
ghost use Rattle.plan_lines.specs.work.Finding.{FindsGiven};

use catalog::Catalog;
use certificate_text::LineCursor;
use pg_base::{RelNo, RelSet};
use plan_tree::range_of;
use sql_query::Prepared;

/// The word behind some bytes; an empty one where they do not come next.
fn next_word<'a>(at: &mut LineCursor<'a>, before: &[u8]) -> &'a [u8]
    requires some { 1 ≤ length before.now }
    ensures next { ReadsListed before.now at.old at.new result.now }
{
    if at.eat(before) { at.word() } else { b"" }
}

/// The relations whose rows a scan is given, where a text lists them in FROM order; any of the query's where it does not.
pub(crate) fn read_given(text: &[u8], cat: &Catalog, q: &Prepared) -> RelSet
    requires bound { IsWellBound cat.now q.now }
    ensures within { IsSetOf q.now (has result.0) }
    ensures only { FindsGiven q.now text.now result }
{
    let relations = range_of(q).items();
    let mut at = LineCursor::new(text);
    let mut set = RelSet::empty();
    let mut word = next_word(&mut at, b" for ");
    for n in 0..relations.len() {
        if word == relations[n].1.items() {
            set = set.union(RelSet::one(RelNo(n as u8)));
            word = next_word(&mut at, b", ");
        }
    }
    set
}
