//! Sets of relations by their aliases.

ghost use Rattle.std.specs.Prelude.{◌≢◌, ◌<◌, ◌≤◌, ◌^◌, IfSome, length, map};
ghost use Rattle.pg_base.specs.Sets.{has};
ghost use Rattle.catalog.specs.Range.{aliases};
ghost use Rattle.sql_query.specs.Queries.{width};
ghost use Rattle.sql_query.specs.WellBound.{IsWellBound};
ghost use Rattle.certificate_text.specs.HasText.{IsSetOf};
ghost use Rattle.certificate_text.specs.Texts.{set_text};
ghost use Rattle.certificate_entries.specs.work.Parts.{IsSet, Reads};
ghost use Rattle.certificate_entries.specs.work.Sets.{ReadsAliases, ReadsParam, ReadsWord};

use catalog::Catalog;
use certificate_text::LineCursor;
use certificate_text::plan_tree::range_of;
use pg_base::{RelNo, RelSet};
use sql_query::Prepared;

/// The word behind a comma; an empty one where no comma comes next.
fn next_word<'a>(at: &mut LineCursor<'a>) -> &'a [u8]
    ensures next { ReadsWord at.old at.new result.now }
{
    if at.eat(b",") { at.word() } else { b"" }
}

/// The relations whose aliases come next, in FROM order, each behind a comma but the first.
fn read_aliases(at: &mut LineCursor, cat: &Catalog, q: &Prepared) -> RelSet
    requires bound { IsWellBound cat.now q.now }
    ensures within { IsSetOf q.now (has result.0) }
    ensures only { ReadsAliases q.now at.old at.new result }
{
    let relations = range_of(q).items();
    let mut set = RelSet::empty();
    let mut word = at.word();
    for n in 0..relations.len() {
        if word == relations[n].1.items() {
            set = set.union(RelSet::one(RelNo(n as u8)));
            word = next_word(at);
        }
    }
    set
}

/// A set. None where none comes next.
pub fn read_set(at: &mut LineCursor, cat: &Catalog, q: &Prepared) -> Option<RelSet>
    requires bound { IsWellBound cat.now q.now }
    ensures within { IfSome result (λ s. IsSetOf q.now (has s.0)) }
    ensures only { Reads (IsSet q.now) (set_text q.now) at.old at.new result }
{
    if !at.eat(b"{") {
        return None;
    }
    let set = read_aliases(at, cat, q);
    if at.eat(b"}") { Some(set) } else { None }
}

/// A parameterisation: a set behind a word, or the empty one where that word does not come next. None where no set stands
/// behind it.
pub fn read_param(at: &mut LineCursor, cat: &Catalog, q: &Prepared) -> Option<RelSet>
    requires bound { IsWellBound cat.now q.now }
    ensures within { IfSome result (λ s. IsSetOf q.now (has s.0)) }
    ensures only { ReadsParam q.now at.old at.new result }
{
    if at.eat(b" for ") {
        read_set(at, cat, q)
    } else {
        Some(RelSet::empty())
    }
}
