//! What a bitmap may be made of at a relation with a parameterisation (PostgreSQL manual, Combining Multiple Indexes;
//! src/backend/optimizer/path/indxpath.c, generate_bitmap_or_paths; the first 8 elements are own).

ghost use Rattle.std.specs.Prelude.{◌≡◌, ◌<◌, ◌≤◌, ◌↔◌, IsTrue, IfSome, MatchOption, List, cond, length, map, nat_lt};
ghost use Rattle.pg_base.specs.Sets.{has};
ghost use Rattle.pg_base.specs.declared.limits.TheConstants.{MOST_ATOMS};
ghost use Rattle.pg_base.specs.declared.numbers.IndexNo.{IndexNo};
ghost use Rattle.pg_expr.specs.work.AtomSets.{contains};
ghost use Rattle.pg_expr.specs.Columns.{atom_count};
ghost use Rattle.pg_expr.specs.work.View as view;
ghost use Rattle.sql_query.specs.catalog_Contents.{Contents, IsIndex, IsTable};
ghost use Rattle.path_cost.specs.work.Columns.{AreOver};
ghost use Rattle.index_match.specs.Conditions.{index_conditions};
ghost use Rattle.index_match.specs.work.Slots.{AreLocal};
ghost use Rattle.sql_query.specs.Queries.{width};
ghost use Rattle.plan_tree.specs.Bitmaps as bitmaps;
ghost use Rattle.plan_tree.specs.work.Bitmaps as bitmaps_work;
ghost use Rattle.plan_tree.specs.Bitmaps.{IsElement, IsIndexOn, MatchesArm, by_index, table_of_relation, AreMatchedArms};
ghost use Rattle.plan_tree.specs.work.Bitmaps.{with_element, HasNumber, AreOfFewAtoms, IsNoOr, IsOrOf, IsMatchedAt, AreFirstElements};
ghost use Rattle.plan_tree.specs.work.Gathering.{GathersIndexes, GathersClauses};
ghost use Rattle.plan_tree.specs.work.Reads.{IsOverTables};
ghost use Rattle.plan_tree.specs.work.Views.{element};

use crate::estimates::{classes_of, range_of};
use crate::scans::bounds_and_tests;
use arrayvec::ArrayVec;
use eq_classes::{Classes, ClauseSet};
use index_match::predicate_proof::or_parts;
use index_match::{conditions, conditions_among, local_clauses, usable};
use pg_base::{IndexNo, RelNo, RelSet, TableNo};
use pg_expr::Expr;
use sql_query::Prepared;
use sql_query::catalog::Catalog;
use std::marker::Model;

/// How many elements may be combined.
pub const MOST_ELEMENTS: usize = 8;

/// What a bitmap may be made of.
#[derive(Clone, Copy, Debug, PartialEq, Eq)]
pub enum Element {
    /// The entries of an index that meet its conditions.
    Index(IndexNo),
    /// The arms of an OR clause, by its number.
    Clause(u16),
}

impl Default for Element {
    fn default() -> Element {
        Element::Index(IndexNo(0))
    }
}

/// At most 8 elements in their order. Contracts see the list.
pub struct Elements {
    kept: ArrayVec<Element, MOST_ELEMENTS>,
}

impl Drop for Elements {
    fn drop(self) {
        let Elements { kept: _ } = self;
    }
}

impl Model for Elements {
    ghost use Rattle.std.specs.Prelude.{List, map};
    ghost use Rattle.plan_tree.specs.Bitmaps as bitmaps;
    ghost use Rattle.plan_tree.specs.work.Bitmaps as bitmaps_work;
    ghost use Rattle.plan_tree.specs.work.Views.{element};

    ghost Value = { List bitmaps.Element };

    ghost view = { λ e. map element e.kept.items };
}

impl Elements {
    /// The elements in order, lent.
    pub fn items(&self) -> &[Element]
        ensures list { map element result.now ≡ self.now }
        ensures few { length result.now ≤ MOST_ELEMENTS }
    {
        self.kept.as_slice()
    }

    /// Puts an element in at the end, where there is room.
    fn add(&mut self, e: Element)
        ensures { self.new ≡ with_element self.old (element e) }
    {
        if !self.kept.is_full() {
            self.kept.push(e);
        }
    }

    /// Puts an element in at the end, where it is to be and there is room.
    fn note(&mut self, e: Element, is: bool)
        ensures { self.new ≡ cond is (with_element self.old (element e)) self.old }
    {
        if is {
            self.add(e);
        }
    }

    /// Puts in the indexes of the relation's table that are elements, in order of making. `local` has the clauses of the
    /// relation and its parameterisation.
    fn add_indexes(&mut self, cat: &Catalog, q: &Prepared, r: RelNo, p: RelSet, local: &ClauseSet)
        requires query { IsOverTables cat.now q.now }
        requires relation { r.0 < width q.now }
        requires local { AreLocal q.now.classes r.0 (has p.0) (contains local.now) }
        ensures { GathersIndexes cat.now q.now r p self.old self.new }
    {
        for i in cat.indexes(table_of(q, r)) {
            let is = is_index_element(cat, q, r, p, *i, local);
            self.note(Element::Index(*i), is);
        }
    }

    /// Puts in the OR clauses of the relation and its parameterisation that are elements, by number. `local` has the clauses
    /// of both.
    fn add_clauses(&mut self, cat: &Catalog, q: &Prepared, r: RelNo, p: RelSet, local: &ClauseSet)
        requires query { IsOverTables cat.now q.now }
        requires relation { r.0 < width q.now }
        requires local { AreLocal q.now.classes r.0 (has p.0) (contains local.now) }
        ensures { GathersClauses cat.now q.now r p self.old self.new }
    {
        for n in 0..classes_of(q).count() {
            let is = is_clause_element(cat, q, r, n as u16, local.has(n as u16));
            self.note(Element::Clause(n as u16), is);
        }
    }
}

/// The table of a relation.
pub(crate) fn table_of(q: &Prepared, r: RelNo) -> TableNo
    requires relation { r.0 < width q.now }
    ensures table { result ≡ table_of_relation q.now r.0 }
    ensures made { (c : Contents) → IsOverTables c q.now → IsTable c result }
{
    range_of(q).items()[r.0 as usize].0
}

/// Whether an index is one of the catalogue, of a relation's table.
pub fn is_index_on(cat: &Catalog, q: &Prepared, r: RelNo, i: IndexNo) -> bool
    requires query { IsOverTables cat.now q.now }
    requires relation { r.0 < width q.now }
    ensures { IsTrue result ↔ IsIndexOn cat.now q.now r.0 i }
{
    cat.indexes(table_of(q, r)).contains(&i)
}

/// Whether a set has the number of a clause.
pub(crate) fn has_some(classes: &Classes, set: &ClauseSet) -> bool
    ensures { IsTrue result ↔ HasNumber classes.now set.now }
{
    for n in 0..classes.count() {
        if set.has(n as u16) {
            return true;
        }
    }
    false
}

/// Whether an index has a condition among the clauses of a relation and of its parameterisation.
pub fn has_condition(cat: &Catalog, q: &Prepared, r: RelNo, p: RelSet, i: IndexNo) -> bool
    requires few { width q.now ≤ 16 }
    requires relation { r.0 < width q.now }
    requires index { IsIndex cat.now i }
    ensures { result ≡ nat_lt 0 (length (index_conditions cat.now q.now.classes i r.0 (has p.0))) }
{
    let classes = classes_of(q);
    let found = conditions(cat, range_of(q), classes, i, r, p);
    has_some(classes, &bounds_and_tests(classes, &found))
}

/// Whether an index has a condition among these clauses, which are those of a relation and of its parameterisation.
fn has_condition_among(
    cat: &Catalog,
    q: &Prepared,
    r: RelNo,
    p: RelSet,
    i: IndexNo,
    local: &ClauseSet,
) -> bool
    requires index { IsIndex cat.now i }
    requires local { AreLocal q.now.classes r.0 (has p.0) (contains local.now) }
    ensures { result ≡ nat_lt 0 (length (index_conditions cat.now q.now.classes i r.0 (has p.0))) }
{
    let classes = classes_of(q);
    let found = conditions_among(cat, classes, i, r, p, local);
    has_some(classes, &bounds_and_tests(classes, &found))
}

/// Whether an index is an element: it is usable and has a condition among the clauses of the relation and of its
/// parameterisation.
fn is_index_element(
    cat: &Catalog,
    q: &Prepared,
    r: RelNo,
    p: RelSet,
    i: IndexNo,
    local: &ClauseSet,
) -> bool
    requires few { width q.now ≤ 16 }
    requires relation { r.0 < width q.now }
    requires index { IsIndex cat.now i }
    requires local { AreLocal q.now.classes r.0 (has p.0) (contains local.now) }
    ensures { IsTrue result ↔ IsElement cat.now q.now r.0 (has p.0) (by_index i) }
{
    usable(cat, range_of(q), classes_of(q), i, r) && has_condition_among(cat, q, r, p, i, local)
}

/// Whether an index is a usable one of the relation's table that wholly matches an arm. The conditions are that the
/// relation is one of the query, and that the arm has no more atoms than a statement may have; the index may be any
/// number.
pub fn matches_arm(cat: &Catalog, q: &Prepared, r: RelNo, arm: &Expr, i: IndexNo) -> bool
    requires query { IsOverTables cat.now q.now }
    requires relation { r.0 < width q.now }
    requires few { atom_count (view.cond arm.now) ≤ MOST_ATOMS }
    ensures matches { IsTrue result ↔ MatchesArm cat.now q.now r.0 (view.cond arm.now) i }
{
    is_index_on(cat, q, r, i)
        && usable(cat, range_of(q), classes_of(q), i, r)
        && index_match::arm(cat, range_of(q), i, r, arm).is_some()
}

/// Whether some index matches an arm.
fn has_match(cat: &Catalog, q: &Prepared, r: RelNo, arm: &Expr) -> bool
    requires query { IsOverTables cat.now q.now }
    requires relation { r.0 < width q.now }
    requires few { atom_count (view.cond arm.now) ≤ MOST_ATOMS }
    ensures { IsTrue result ↔ ((i : IndexNo) × MatchesArm cat.now q.now r.0 (view.cond arm.now) i) }
{
    for i in cat.indexes(table_of(q, r)) {
        if matches_arm(cat, q, r, arm, *i) {
            return true;
        }
    }
    false
}

/// Whether each of some arms is matched by some index.
fn are_matched(cat: &Catalog, q: &Prepared, r: RelNo, arms: &[Expr]) -> bool
    requires query { IsOverTables cat.now q.now }
    requires relation { r.0 < width q.now }
    requires few { AreOfFewAtoms arms.now }
    ensures { IsTrue result ↔ AreMatchedArms cat.now q.now r.0 (map view.cond arms.now) }
{
    for arm in arms {
        if !has_match(cat, q, r, arm) {
            return false;
        }
    }
    true
}

/// The arms of an OR clause, by its number. None exactly where the clause is no OR. The arms are over what the clause is
/// over, and have no more atoms.
pub fn or_arms(q: &Prepared, n: u16) -> Option<&[Expr]>
    requires clause { n < length q.now.classes.clauses }
    ensures arms { MatchOption result (IsNoOr q.now n) (λ arms. IsOrOf q.now n arms.now) }
    ensures over { (c : Contents) → IsOverTables c q.now →
        IfSome result (λ arms. AreOver c q.now.range arms.now) }
    ensures few { (c : Contents) → IsOverTables c q.now →
        IfSome result (λ arms. AreOfFewAtoms arms.now) }
{
    or_parts(classes_of(q).clause(n))
}

/// Whether the clause of a number is an OR each of whose arms some index matches.
fn is_matched_or(cat: &Catalog, q: &Prepared, r: RelNo, n: u16) -> bool
    requires query { IsOverTables cat.now q.now }
    requires relation { r.0 < width q.now }
    requires clause { n < length q.now.classes.clauses }
    ensures { IsTrue result ↔ IsMatchedAt cat.now q.now r.0 n }
{
    match or_arms(q, n) {
        Some(arms) => are_matched(cat, q, r, arms),
        None => false,
    }
}

/// Whether a clause is one of the relation and its parameterisation, and an element: an OR that is matched.
fn is_clause_element(cat: &Catalog, q: &Prepared, r: RelNo, n: u16, is_local: bool) -> bool
    requires query { IsOverTables cat.now q.now }
    requires relation { r.0 < width q.now }
    requires clause { n < length q.now.classes.clauses }
    ensures { IsTrue result ↔ (IsTrue is_local × IsMatchedAt cat.now q.now r.0 n) }
{
    is_local && is_matched_or(cat, q, r, n)
}

/// What `first_elements` finds, where `local` has the clauses of relation `r` and of its parameterisation.
pub fn elements_among(
    cat: &Catalog,
    q: &Prepared,
    r: RelNo,
    p: RelSet,
    local: &ClauseSet,
) -> Elements
    requires query { IsOverTables cat.now q.now }
    requires relation { r.0 < width q.now }
    requires local { AreLocal q.now.classes r.0 (has p.0) (contains local.now) }
    ensures elements { AreFirstElements cat.now q.now r p result }
{
    let mut found = Elements {
        kept: ArrayVec::new(),
    };
    found.add_indexes(cat, q, r, p, local);
    found.add_clauses(cat, q, r, p, local);
    found
}

/// The first 8 of what a bitmap may be made of for relation `r` where the rows of `p` are given: the usable indexes of
/// its table with a condition, in order of making; then the OR clauses of the relation and its parameterisation, by
/// number, each of whose arms some usable index wholly matches. It takes no memory.
pub fn first_elements(cat: &Catalog, q: &Prepared, r: RelNo, p: RelSet) -> Elements
    requires query { IsOverTables cat.now q.now }
    requires relation { r.0 < width q.now }
    ensures elements { AreFirstElements cat.now q.now r p result }
{
    let local = local_clauses(classes_of(q), r, p);
    elements_among(cat, q, r, p, &local)
}
