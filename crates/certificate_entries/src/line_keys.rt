//! Keys by their columns.

ghost use Rattle.std.specs.Prelude.{◌≡◌, ◌≤◌, ℕ, IfNone, IfSome, false, length};
ghost use Rattle.pg_base.specs.Sets.{has};
ghost use Rattle.pg_expr.specs.declared.operand.ColRef as columns;
ghost use Rattle.certificate_text.specs.explain_Texts.{direction_text};
ghost use Rattle.sql_query.specs.WellBound.{IsWellBound};
ghost use Rattle.certificate_entries.specs.work.Keys.{FindsClass, FindsColumn, FindsRelation, HasAlias, HasKeyText, IsClassIn, IsClassOf, IsNamed, ReadsKey, ReadsKeyWords};

use catalog::Catalog;
use certificate_text::LineCursor;
use certificate_text::plan_tree::{classes_of, range_of};
use eq_classes::ClassNo;
use pg_base::{RelNo, RelSet};
use pg_expr::ColRef;
use pg_value::Family;
use sql_query::Prepared;

/// The relation that has this alias.
fn find_relation(cat: &Catalog, q: &Prepared, alias: &[u8]) -> Option<RelNo>
    requires bound { IsWellBound cat.now q.now }
    ensures found { IfSome result (λ r. HasAlias q.now alias.now r) }
    ensures only { FindsRelation q.now alias.now result }
{
    let relations = range_of(q).items();
    for n in 0..relations.len() {
        if relations[n].1.items() == alias {
            return Some(RelNo(n as u8));
        }
    }
    None
}

/// The column that has this name, of the relation that has this alias.
fn find_column(cat: &Catalog, q: &Prepared, alias: &[u8], name: &[u8]) -> Option<ColRef>
    requires bound { IsWellBound cat.now q.now }
    ensures found { IfSome result (IsNamed cat.now q.now alias.now name.now) }
    ensures only { FindsColumn cat.now q.now alias.now name.now result }
{
    cat.lawful();
    let rel = find_relation(cat, q, alias)?;
    let (table, _) = &range_of(q).items()[rel.0 as usize];
    let col = cat.column(*table, name)?;
    Some(ColRef { rel, col })
}

/// The class of a column in a family.
fn class_in(q: &Prepared, x: ColRef, f: Family) -> Option<ClassNo>
    ensures found { IfSome result (λ n. IsClassIn q.now x f n.0) }
    ensures none { IfNone result ((n : ℕ) → ¬ IsClassIn q.now x f n) }
{
    classes_of(q).class_of(x, f)
}

/// The class of a column in the family of its type.
fn plain_class(q: &Prepared, x: ColRef) -> Option<ClassNo>
    ensures found { IfSome result (λ n. IsClassOf q.now x false n.0) }
    ensures none { IfNone result ((n : ℕ) → ¬ IsClassOf q.now x false n) }
{
    classes_of(q).plain_class_of(x)
}

/// The class of a column, in the family of absolute values or in another.
fn find_class(q: &Prepared, x: ColRef, abs: bool) -> Option<ClassNo>
    ensures found { IfSome result (λ n. IsClassOf q.now x abs n.0) }
    ensures none { IfNone result ((n : ℕ) → ¬ IsClassOf q.now x abs n) }
{
    if abs {
        class_in(q, x, Family::IntAbs)
    } else {
        plain_class(q, x)
    }
}

/// How the direction of a class is written.
fn direction_bytes(direction: (bool, bool)) -> &'static [u8]
    ensures { result.now ≡ direction_text direction.0 direction.1 }
{
    match direction {
        (true, true) => b" DESC",
        (true, false) => b" DESC NULLS LAST",
        (false, true) => b" NULLS FIRST",
        (false, false) => b"",
    }
}

/// What is written of a key before its direction: the alias of its relation, the name of its column, and whether its
/// family is that of absolute values.
#[derive(Clone, Copy)]
struct KeyWords<'a> {
    alias: &'a [u8],
    name: &'a [u8],
    abs: bool,
}

/// The words of a key.
fn read_words<'a>(at: &mut LineCursor<'a>) -> Option<KeyWords<'a>>
    ensures only { ReadsKeyWords at.old at.new result }
    ensures shorter { length at.new ≤ length at.old }
{
    let alias = at.word();
    if !at.eat(b".") {
        return None;
    }
    let name = at.word();
    let abs = at.eat(b" int_abs_ops");
    Some(KeyWords { alias, name, abs })
}

/// The class with a member inside the set that has these words by its first member there.
fn class_by(cat: &Catalog, q: &Prepared, set: RelSet, words: &KeyWords) -> Option<ClassNo>
    requires bound { IsWellBound cat.now q.now }
    ensures has { IfSome result (λ n. HasKeyText q.now (has set.0) n.0) }
    ensures only { FindsClass cat.now q.now (has set.0) words.now result }
{
    let column = find_column(cat, q, words.alias, words.name)?;
    let class = find_class(q, column, words.abs)?;
    classes_of(q).member(class, set)?;
    Some(class)
}

/// A key: a class with a member inside the set, by that member, its family and its direction.
pub fn read_key(at: &mut LineCursor, cat: &Catalog, q: &Prepared, set: RelSet) -> Option<ClassNo>
    requires bound { IsWellBound cat.now q.now }
    ensures has { IfSome result (λ n. HasKeyText q.now (has set.0) n.0) }
    ensures only { ReadsKey cat.now q.now (has set.0) at.old at.new result }
    ensures shorter { length at.new ≤ length at.old }
{
    cat.lawful();
    let words = read_words(at)?;
    let class = class_by(cat, q, set, &words)?;
    if at.eat(direction_bytes(classes_of(q).direction(class))) {
        Some(class)
    } else {
        None
    }
}
