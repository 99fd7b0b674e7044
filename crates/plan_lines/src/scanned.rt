//! Scans: a relation, and those whose rows it is given.

ghost use Rattle.std.specs.Prelude.{◌≡◌, ◌↔◌, ◌<◌, IfSome, IsTrue};
ghost use Rattle.pg_base.specs.Sets.{has};
ghost use Rattle.certificate_entries.specs.explain_Texts.{given_text, rel_text, scanned_text};
ghost use Rattle.sql_query.specs.Queries.{width};
ghost use Rattle.sql_query.specs.WellBound.{IsWellBound};
ghost use Rattle.plan_lines.specs.HasText.{IsScanned};
ghost use Rattle.plan_lines.specs.work.Finding.{Finds, FindsScanned, IsGivenSet, IsGivenTo};

use crate::given::read_given;
use crate::relations::{behind_given, behind_relation};
use catalog::Catalog;
use pg_base::{RelNo, RelSet};
use plan_tree::range_of;
use sql_query::Prepared;

/// Whether a text is that of the relations of a set whose rows a scan is given.
fn is_given(text: &[u8], cat: &Catalog, q: &Prepared, p: RelSet) -> bool
    requires bound { IsWellBound cat.now q.now }
    ensures { IsTrue result ↔ (text.now ≡ given_text q.now.range p) }
{
    match behind_given(text, q, p) {
        Some(left) => left.is_empty(),
        None => false,
    }
}

/// The relations whose rows a scan of this relation is given. None where a text is that of no such scan.
fn given_to(text: &[u8], cat: &Catalog, q: &Prepared, r: RelNo) -> Option<RelSet>
    requires bound { IsWellBound cat.now q.now }
    requires relation { r.0 < width q.now }
    ensures is { IfSome result (λ p. IsGivenTo cat.now q.now r text.now p) }
    ensures only { Finds (IsGivenSet q.now) (scanned_text cat.now q.now r) text.now result }
{
    let left = behind_relation(text, cat, q, r)?;
    let given = read_given(left, cat, q);
    if is_given(left, cat, q, given) {
        Some(given)
    } else {
        None
    }
}

/// The relation of a scan and those whose rows it is given, where a text is theirs. None where it is that of no scan.
pub fn read_scanned(text: &[u8], cat: &Catalog, q: &Prepared) -> Option<(RelNo, RelSet)>
    requires bound { IsWellBound cat.now q.now }
    ensures has { IfSome result (λ s. IsScanned cat.now q.now s.0 s.1) }
    ensures only { FindsScanned cat.now q.now text.now result }
{
    cat.lawful();
    for n in 0..range_of(q).items().len() {
        let rel = RelNo(n as u8);
        if let Some(param) = given_to(text, cat, q, rel) {
            return Some((rel, param));
        }
    }
    None
}

/// The relation of a scan that is given no rows, where a text is its. None where it is that of no scan.
pub fn read_relation(text: &[u8], cat: &Catalog, q: &Prepared) -> Option<RelNo>
    requires bound { IsWellBound cat.now q.now }
    ensures has { IfSome result (λ r. r.0 < width q.now) }
    ensures only { Finds (λ r. r.0 < width q.now) (rel_text cat.now q.now) text.now result }
{
    let (rel, _) = read_scanned(text, cat, q)?;
    Some(rel)
}
