//! The classes, made of the groups mention by mention.

ghost use Rattle.std.specs.Prelude.{◌≡◌, ◌<◌, ℕ, nat_eq, ◌||◌, AllPairs, filter, Some, [], ◌++◌, find, option_map, IfOk, OnOk, IsTrue, All, IfSome, length, ◌≤◌, ◌+◌, ◌&&◌};
ghost use Rattle.std.specs.List.{list_any, prefix_len};
ghost use Rattle.opfamily.specs.pg_value_work_Order.{IsOfFamily};
ghost use Rattle.pg_expr.specs.Columns.{each_column};
ghost use Rattle.pg_expr.specs.Pushed.{is_lower};
ghost use Rattle.pg_expr.specs.Typed.{IsTyped, AreTyped};
ghost use Rattle.pg_expr.specs.work.View as view;
ghost use Rattle.eq_classes.specs.Equality.{is_column, are_equal};
ghost use Rattle.eq_classes.specs.Classes.{is_in, in_family, is_plain, orders_by};
ghost use Rattle.opfamily.specs.pg_base_Sets.{has};
ghost use Rattle.eq_classes.specs.Clauses.{has_constant, first_in, one, is_first};
ghost use Rattle.eq_classes.specs.work.Clauses.{as_first};
ghost use Rattle.eq_classes.specs.Parts.{has_in, is_lowest};
ghost use Rattle.eq_classes.specs.work.Parts.{is_number};
ghost use Rattle.eq_classes.specs.work.Building.{IsMasked, inserted, arranged, is_group_of, members_of, over, noted, AreBoundBy, literal_by, with_value, with_lent, AreConstantsBy, order_direction, class_from, PlacesColumn, PlacesConjunct, PlacesItem, PlacesConjuncts, PlacesItems, AreClassesFrom};
ghost use Rattle.std.specs.Option.{option_copied};

use crate::equality::{
    equal_values, equality, is_absolute, same_column, same_family, stands_before,
};
use crate::group::{Group, group_all};
use crate::order::OrderItem;
use crate::rel_sets::shared;
use opfamily::default_family;
use opfamily::pg_base::{Memory, RelNo, RelSet};
use opfamily::pg_value::{Family, Value};
use pg_expr::{Binding, ColRef, Expr, Operand};
use std::alloc::Global;
use std::marker::Model;

/// A class of columns and constants that equality joins.
pub struct EqClass {
    family: Family,
    members: Vec<ColRef>,
    constants: Vec<Value>,
    descending: bool,
    nulls_first: bool,
    rels: RelSet,
}

impl Drop for EqClass {
    fn drop(self) {
        let EqClass {
            family: _,
            members: _,
            constants: _,
            descending: _,
            nulls_first: _,
            rels: _,
        } = self;
    }
}

impl Model for EqClass {
    ghost use Rattle.std.specs.Prelude.{AllPairs, IsTrue};
    ghost use Rattle.pg_expr.specs.Pushed.{is_lower};
    ghost use Rattle.eq_classes.specs.work.Building.{IsMasked};
    ghost use Rattle.eq_classes.specs.Classes.{Class};

    ghost Value = { Class };

    ghost view = { λ c. record { family = c.family; members = c.members.items; constants = c.constants.items; descending = c.descending; nulls_first = c.nulls_first } };

    ghost invariant = { λ c. IsMasked c.rels.0 c.members.items × AllPairs (λ x y. IsTrue (is_lower x y)) c.members.items };
}

impl EqClass {
    /// The family.
    pub fn family(&self) -> Family
        ensures { result ≡ self.now.family }
    {
        self.family
    }

    /// The members in order, lent.
    pub fn members(&self) -> &[ColRef]
        ensures { result.now ≡ self.now.members }
    {
        &self.members
    }

    /// The constants in order, lent.
    pub fn constants(&self) -> &[Value]
        ensures { result.now ≡ self.now.constants }
    {
        &self.constants
    }

    /// Descending and nulls first.
    pub fn direction(&self) -> (bool, bool)
        ensures { result ≡ (self.now.descending, self.now.nulls_first) }
    {
        (self.descending, self.nulls_first)
    }

    /// Whether the class has a constant.
    pub fn has_constant(&self) -> bool
        ensures { result ≡ has_constant self.now }
    {
        self.constants.len() > 0
    }

    /// The first member of a relation.
    pub fn first_of(&self, r: RelNo) -> Option<ColRef>
        ensures { result ≡ first_in self.now (one r.0) }
    {
        for m in &self.members {
            if m.rel.0 == r.0 {
                return Some(*m);
            }
        }
        None
    }

    /// The first member inside a set.
    pub fn first_inside(&self, set: RelSet) -> Option<ColRef>
        ensures { result ≡ first_in self.now (has set.0) }
    {
        for m in &self.members {
            if set.has(m.rel) {
                return Some(*m);
            }
        }
        None
    }

    /// Whether the class has a member inside a set.
    pub fn has_in(&self, set: RelSet) -> bool
        ensures { result ≡ has_in self.now (has set.0) }
    {
        self.rels.meets(set)
    }

    /// The lowest relation of a set in which the class has a member.
    pub fn lowest(&self, set: RelSet) -> Option<RelNo>
        ensures { (r : ℕ) → is_lowest self.now (has set.0) r ≡ is_number result r }
    {
        shared(self.rels, set).first()
    }

    fn is_first(&self, x: ColRef) -> bool
        ensures { result ≡ is_first self.now x }
    {
        match self.first_of(x.rel) {
            Some(first) => same_column(x, first),
            None => false,
        }
    }

    /// Puts a member at the end where it is the first of its relation.
    fn note_first(&self, firsts: &mut Vec<ColRef>, x: ColRef) -> Result<(), Memory>
        ensures { OnOk result (firsts.new.items ≡ firsts.old.items ++ as_first self.now x) }
    {
        if self.is_first(x) {
            firsts.push(x)?;
        }
        Ok(())
    }

    fn firsts_among(&self, alloc: Global, members: &[ColRef]) -> Result<Vec<ColRef>, Memory>
        ensures { IfOk result (λ xs. xs.items ≡ filter (is_first self.now) members.now) }
    {
        let mut firsts = Vec::new(alloc);
        for x in members {
            self.note_first(&mut firsts, *x)?;
        }
        Ok(firsts)
    }

    /// The first members of the relations that have members.
    pub fn firsts(&self, alloc: Global) -> Result<Vec<ColRef>, Memory>
        ensures { IfOk result (λ xs. xs.items ≡ filter (is_first self.now) self.now.members) }
    {
        self.firsts_among(alloc, &self.members)
    }

    /// Whether the class is of the family and has the column.
    pub fn is_of(&self, f: Family, x: ColRef) -> bool
        ensures { result ≡ is_in self.now (in_family x f) }
    {
        same_family(self.family, f) && has_column(&self.members, x)
    }

    /// Whether the class has the column, and is of another family than that of absolute values.
    pub fn is_plain(&self, x: ColRef) -> bool
        ensures { result ≡ is_plain x self.now }
    {
        !is_absolute(self.family) && has_column(&self.members, x)
    }
}

/// Whether a column is in the list.
fn has_column(members: &[ColRef], x: ColRef) -> bool
    ensures { result ≡ list_any (is_column x) members.now }
{
    members.iter().any(|m| same_column(x, *m))
}

/// How many of the first columns stand before the column.
fn place_of(members: &[ColRef], x: ColRef) -> usize
    ensures place { result ≡ prefix_len (λ m. is_lower m x) members.now }
    ensures within { result ≤ length members.now }
{
    for at in 0..members.len() {
        if !stands_before(members[at], x) {
            return at;
        }
    }
    members.len()
}

/// Puts a column in its place, once.
fn insert_member(members: &mut Vec<ColRef>, x: ColRef) -> Result<(), Memory>
    ensures { OnOk result (members.new.items ≡ inserted x members.old.items) }
{
    if has_column(members, x) {
        return Ok(());
    }
    let at = place_of(members, x);
    members.insert(at, x)?;
    Ok(())
}

/// The columns in order, each once.
fn arrange(alloc: Global, columns: &[ColRef]) -> Result<Vec<ColRef>, Memory>
    ensures { IfOk result (λ ms. ms.items ≡ arranged columns.now []) }
{
    let mut members = Vec::new(alloc);
    for c in columns {
        insert_member(&mut members, *c)?;
    }
    Ok(members)
}

/// The set with one more relation, where its number is below 16.
fn with_relation(set: RelSet, r: RelNo) -> RelSet
    ensures { (k : ℕ) → k < 16 → has result.0 k ≡ has set.0 k || nat_eq r.0 k }
{
    if r.0 < 16 {
        set.union(RelSet::one(r))
    } else {
        set
    }
}

/// The relations of the columns.
fn rels_of(columns: &[ColRef]) -> RelSet
    ensures { IsMasked result.0 columns.now }
{
    let mut set = RelSet::empty();
    for c in columns {
        set = with_relation(set, c.rel);
    }
    set
}

/// The group of a column in a family.
fn find_group<'a>(groups: &'a [Group], f: Family, x: ColRef) -> Option<&'a Group>
    ensures { option_map (λ g. g.now) result ≡ find (is_group_of f x) groups.now }
{
    for group in groups {
        if group.is_of(f, x) {
            return Some(group);
        }
    }
    None
}

/// The members of the class of a column.
fn class_members(
    alloc: Global,
    groups: &[Group],
    f: Family,
    x: ColRef,
) -> Result<Vec<ColRef>, Memory>
    ensures members { IfOk result (λ ms. ms.items ≡ members_of groups.now f x) }
    ensures rising { IfOk result (λ ms. AllPairs (λ a b. IsTrue (is_lower a b)) ms.items) }
{
    match find_group(groups, f, x) {
        Some(group) => arrange(alloc, group.columns()),
        None => {
            let mut members = Vec::new(alloc);
            members.push(x)?;
            Ok(members)
        }
    }
}

/// The literal that a conjunct writes beside a member of the class.
#[tactic(auto, using(crate::proofs::SearchLemmas::helps))]
fn class_literal<'a, B: Binding>(
    k: &'a Expr,
    typed: &B,
    f: Family,
    members: &[ColRef],
) -> Option<&'a Value>
    requires bound { IsTrue (each_column (B.binds typed.now) (view.cond k.now)) }
    requires typed { IsTyped (B.type_of typed.now) (view.cond k.now) }
    ensures value { option_copied result ≡ literal_by (B.type_of typed.now) f members.now k.now }
    ensures suits { IfSome result (λ v. IsOfFamily f v.now) }
{
    let (family, l, r) = equality(k, typed)?;
    if !same_family(f, family) || !has_column(members, l) {
        return None;
    }
    match r {
        Operand::Col(_) => None,
        Operand::Lit(v) => Some(v),
    }
}

/// Whether a value is equal to one of a list.
fn has_equal(f: Family, values: &[Value], v: &Value) -> bool
    requires each { All (IsOfFamily f) values.now }
    requires value { IsOfFamily f v.now }
    ensures { result ≡ list_any (are_equal f v.now) values.now }
{
    for w in values {
        if equal_values(f, v, w) {
            return true;
        }
    }
    false
}

/// Puts a value at the end of a list where none is equal.
fn note_value(alloc: Global, values: &mut Vec<Value>, f: Family, v: &Value) -> Result<(), Memory>
    requires each { All (IsOfFamily f) values.old.items }
    requires value { IsOfFamily f v.now }
    ensures noted { OnOk result (values.new.items ≡ with_value f v.now values.old.items) }
    ensures each { OnOk result (All (IsOfFamily f) values.new.items) }
{
    if has_equal(f, values, v) {
        return Ok(());
    }
    values.push(v.copy(alloc)?)?;
    Ok(())
}

/// Puts a value, where there is one, at the end of a list where none is equal.
fn note_literal(
    alloc: Global,
    values: &mut Vec<Value>,
    f: Family,
    found: Option<&Value>,
) -> Result<(), Memory>
    requires each { All (IsOfFamily f) values.old.items }
    requires value { IfSome found (λ v. IsOfFamily f v.now) }
    ensures noted { OnOk result (values.new.items ≡ with_lent f found.entry values.old.items) }
    ensures each { OnOk result (All (IsOfFamily f) values.new.items) }
{
    match found {
        Some(v) => note_value(alloc, values, f, v),
        None => Ok(()),
    }
}

/// The constants of a class.
#[tactic(auto, using(crate::proofs::SearchLemmas::helps))]
fn class_constants<B: Binding>(
    alloc: Global,
    conjuncts: &[Expr],
    typed: &B,
    f: Family,
    members: &[ColRef],
) -> Result<Vec<Value>, Memory>
    requires bound { AreBoundBy (B.binds typed.now) conjuncts.now }
    requires typed { AreTyped (B.type_of typed.now) (view.conds conjuncts.now) }
    ensures { IfOk result (λ vs. AreConstantsBy (B.type_of typed.now) conjuncts.now f members.now vs) }
{
    let mut values = Vec::new(alloc);
    for k in conjuncts {
        note_literal(alloc, &mut values, f, class_literal(k, typed, f, members))?;
    }
    Ok(values)
}

/// Whether an item of ORDER BY is by the class.
#[tactic(auto, using(crate::proofs::SearchLemmas::helps))]
fn is_by<B: Binding>(item: OrderItem, typed: &B, f: Family, members: &[ColRef]) -> bool
    requires { IsTrue (B.binds typed.now item.col) }
    ensures { result ≡ orders_by (B.type_of typed.now) (over f members.now) item }
{
    same_family(f, default_family(typed.typed(item.col))) && has_column(members, item.col)
}

/// The direction of a class.
fn class_direction<B: Binding>(
    order: &[OrderItem],
    typed: &B,
    f: Family,
    members: &[ColRef],
) -> (bool, bool)
    requires { All (λ i. IsTrue (B.binds typed.now i.col)) order.now }
    ensures { result ≡ order_direction (B.type_of typed.now) order.now f members.now }
{
    for item in order {
        if is_by(*item, typed, f, members) {
            return (item.descending, item.nulls_first);
        }
    }
    (false, false)
}

/// What classes are made of: conjuncts, the groups of their equalities, and an ORDER BY.
#[derive(Drop)]
struct Source<'a, B: Binding> {
    alloc: Global,
    groups: &'a [Group],
    conjuncts: &'a [Expr],
    order: &'a [OrderItem],
    typed: &'a B,
}

/// The class of a column in a family.
fn make_class<B: Binding>(from: &Source<B>, f: Family, x: ColRef) -> Result<EqClass, Memory>
    requires bound { AreBoundBy (B.binds from.now.typed.now) from.now.conjuncts.now }
    requires typed { AreTyped (B.type_of from.now.typed.now) (view.conds from.now.conjuncts.now) }
    requires order { All (λ i. IsTrue (B.binds from.now.typed.now i.col)) from.now.order.now }
    ensures { IfOk result (λ c. c ≡ class_from B.type_of from.now f x) }
{
    let members = class_members(from.alloc, from.groups, f, x)?;
    let rels = rels_of(&members);
    let constants = class_constants(from.alloc, from.conjuncts, from.typed, f, &members)?;
    let (descending, nulls_first) = class_direction(from.order, from.typed, f, &members);
    Ok(EqClass {
        family: f,
        members,
        constants,
        descending,
        nulls_first,
        rels,
    })
}

/// Whether some class of a family has a column.
fn is_placed(classes: &[EqClass], f: Family, x: ColRef) -> bool
    ensures { result ≡ list_any (λ c. is_in c (in_family x f)) classes.now }
{
    classes.iter().any(|c| c.is_of(f, x))
}

/// Puts the class of a column in a family at the end, where none is there.
fn note_mention<B: Binding>(
    from: &Source<B>,
    classes: &mut Vec<EqClass>,
    f: Family,
    x: ColRef,
) -> Result<(), Memory>
    requires bound { AreBoundBy (B.binds from.now.typed.now) from.now.conjuncts.now }
    requires typed { AreTyped (B.type_of from.now.typed.now) (view.conds from.now.conjuncts.now) }
    requires order { All (λ i. IsTrue (B.binds from.now.typed.now i.col)) from.now.order.now }
    ensures { OnOk result (PlacesColumn B.type_of from.now f x classes.old classes.new) }
{
    if is_placed(classes, f, x) {
        return Ok(());
    }
    classes.push(make_class(from, f, x)?)?;
    Ok(())
}

/// Puts the class of an equality conjunct's left column at the end of the classes where none has it.
#[tactic(auto, using(crate::proofs::SearchLemmas::helps))]
fn note_conjunct<B: Binding>(
    from: &Source<B>,
    classes: &mut Vec<EqClass>,
    k: &Expr,
) -> Result<(), Memory>
    requires bound { AreBoundBy (B.binds from.now.typed.now) from.now.conjuncts.now }
    requires typed { AreTyped (B.type_of from.now.typed.now) (view.conds from.now.conjuncts.now) }
    requires order { All (λ i. IsTrue (B.binds from.now.typed.now i.col)) from.now.order.now }
    requires own_bound { IsTrue (each_column (B.binds from.now.typed.now) (view.cond k.now)) }
    requires own_typed { IsTyped (B.type_of from.now.typed.now) (view.cond k.now) }
    ensures { OnOk result (PlacesConjunct B.type_of from.now k.now classes.old classes.new) }
{
    match equality(k, from.typed) {
        Some((f, l, _)) => note_mention(from, classes, f, l),
        None => Ok(()),
    }
}

/// Puts the class of an ORDER BY item's column at the end of the classes where none has it.
#[tactic(auto, using(crate::proofs::SearchLemmas::helps))]
fn note_item<B: Binding>(
    from: &Source<B>,
    classes: &mut Vec<EqClass>,
    item: OrderItem,
) -> Result<(), Memory>
    requires bound { AreBoundBy (B.binds from.now.typed.now) from.now.conjuncts.now }
    requires typed { AreTyped (B.type_of from.now.typed.now) (view.conds from.now.conjuncts.now) }
    requires order { All (λ i. IsTrue (B.binds from.now.typed.now i.col)) from.now.order.now }
    requires own_bound { IsTrue (B.binds from.now.typed.now item.col) }
    ensures noted { OnOk result (PlacesItem B.type_of from.now item classes.old classes.new) }
    ensures narrow { item.col.col.0 < 256 }
{
    let f = default_family(from.typed.typed(item.col));
    note_mention(from, classes, f, item.col)
}

fn note_conjuncts<B: Binding>(from: &Source<B>, classes: &mut Vec<EqClass>) -> Result<(), Memory>
    requires bound { AreBoundBy (B.binds from.now.typed.now) from.now.conjuncts.now }
    requires typed { AreTyped (B.type_of from.now.typed.now) (view.conds from.now.conjuncts.now) }
    requires order { All (λ i. IsTrue (B.binds from.now.typed.now i.col)) from.now.order.now }
    ensures { OnOk result (PlacesConjuncts B.type_of from.now classes.old classes.new) }
{
    for k in from.conjuncts {
        note_conjunct(from, classes, k)?;
    }
    Ok(())
}

fn note_items<B: Binding>(from: &Source<B>, classes: &mut Vec<EqClass>) -> Result<(), Memory>
    requires bound { AreBoundBy (B.binds from.now.typed.now) from.now.conjuncts.now }
    requires typed { AreTyped (B.type_of from.now.typed.now) (view.conds from.now.conjuncts.now) }
    requires order { All (λ i. IsTrue (B.binds from.now.typed.now i.col)) from.now.order.now }
    ensures noted { OnOk result (PlacesItems B.type_of from.now classes.old classes.new) }
    ensures narrow { OnOk result (All (λ i. i.col.col.0 < 256) from.now.order.now) }
{
    for item in from.order {
        note_item(from, classes, *item)?;
    }
    Ok(())
}

/// The classes of conjuncts and an ORDER BY, in the order of their numbers.
pub fn make_classes<B: Binding>(
    alloc: Global,
    conjuncts: &[Expr],
    order: &[OrderItem],
    typed: &B,
) -> Result<Vec<EqClass>, Memory>
    requires bound { AreBoundBy (B.binds typed.now) conjuncts.now }
    requires typed { AreTyped (B.type_of typed.now) (view.conds conjuncts.now) }
    requires order { All (λ i. IsTrue (B.binds typed.now i.col)) order.now }
    ensures built { IfOk result (AreClassesFrom (B.type_of typed.now) conjuncts.now order.now) }
    ensures narrow { IfOk result (λ _. All (λ i. i.col.col.0 < 256) order.now) }
{
    let groups = group_all(alloc, conjuncts, typed)?;
    let mut classes = Vec::new(alloc);
    let from = Source {
        alloc,
        groups: &groups,
        conjuncts,
        order,
        typed,
    };
    note_conjuncts(&from, &mut classes)?;
    note_items(&from, &mut classes)?;
    Ok(classes)
}
