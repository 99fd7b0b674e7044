//! The classes of a query with its numbered clause list.

ghost use Rattle.std.specs.Prelude.{◌≡◌, ◌<◌, ◌≤◌, length, All, IfOk, IsTrue, not, ◌&&◌, ◌||◌};
ghost use Rattle.pg_expr.specs.work.Columns.{rels_below};
ghost use Rattle.pg_expr.specs.work.View as view;
ghost use Rattle.eq_classes.specs.work.Listing.{AreNamed};
ghost use Rattle.eq_classes.specs.work.Parts.{is_number, spans, is_spared, GivesNextJoining, first_joining};

use crate::class::{EqClass, make_classes};
use crate::clause_set::{ClauseSet, note};
use crate::clauses::{Listed, Origin, add_classes, add_conjuncts, class_of_number};
use crate::order::OrderItem;
use crate::rel_sets::{both, single};
use opfamily::pg_base::{Memory, RelNo, RelSet};
use opfamily::pg_value::Family;
use pg_expr::{Binding, ColRef, Expr, Exprs, rels};
use std::alloc::Global;
use std::marker::Model;

/// A class, by its number.
#[derive(Clone, Copy, Debug, Default, PartialEq, Eq)]
pub struct ClassNo(pub u16);

/// The classes of a query with its numbered clause list. Contracts see the table of both.
pub struct Classes {
    clauses: Vec<Listed>,
    named: Vec<RelSet>,
    classes: Vec<EqClass>,
}

impl Drop for Classes {
    fn drop(self) {
        let Classes {
            clauses: _,
            named: _,
            classes: _,
        } = self;
    }
}

impl Model for Classes {
    ghost use Rattle.std.specs.Prelude.{◌<◌, ◌≤◌, ◌^◌, length};
    ghost use Rattle.std.specs.Coded.{codes};
    ghost use Rattle.pg_expr.specs.work.CondCode.{cond_code};
    ghost use Rattle.eq_classes.specs.Clauses.{ClassTable};
    ghost use Rattle.eq_classes.specs.work.Listing.{table_of, AreNamed};

    ghost Value = { ClassTable };

    ghost coded = { Prim.hlevel (codes, cond_code (Prim.hlevel codes)) };

    ghost view = { λ s. table_of s.classes.items s.clauses.items };

    ghost invariant = { λ s. length s.classes.items < 2 ^ 16 × length s.clauses.items ≤ 512 × AreNamed s.named.items s.clauses.items };
}

impl Classes {
    ghost use Rattle.std.specs.Prelude.{List, true, map, drop, ℕ, IfSome, IfNone};
    ghost use Rattle.opfamily.specs.pg_base_Sets.{has};
    ghost use Rattle.opfamily.specs.pg_base_limits_TheConstants.{MOST_CONJUNCTS};
    ghost use Rattle.eq_classes.specs.Classes.{in_family, class_number, plain_class, conjuncts_in};
    ghost use Rattle.eq_classes.specs.Clauses.{Set, one, first_in, has_constant};
    ghost use Rattle.eq_classes.specs.Parts as parts;
    ghost use Rattle.eq_classes.specs.work.Parts as parts_work;
    ghost use Rattle.eq_classes.specs.Parts.{is_lowest, are_lowest, is_all, is_base, is_join, is_param, is_left_out, is_join_param};
    ghost use Rattle.pg_expr.specs.work.AtomSets.{contains};
    ghost use Rattle.eq_classes.specs.Listing.{class_at, clause_at, conjunct_of, pair_class_of};
    ghost use Rattle.eq_classes.specs.work.Listing.{class_no, selects, sort_direction, clause_of};
    ghost use Rattle.opfamily.specs.pg_value_value_Value.{Value};
    ghost use Rattle.opfamily.specs.pg_value_Truths.{is_true};
    ghost use Rattle.pg_expr.specs.declared.operand.ColRef.{ColRef};
    ghost use Rattle.pg_expr.specs.Cond.{Cond, conds_of};
    ghost use Rattle.pg_expr.specs.Columns.{each_column, names_rel};
    ghost use Rattle.pg_expr.specs.Truths.{truth_of_all};
    ghost use Rattle.pg_expr.specs.Typed.{IsTyped, AreTyped};
    ghost use Rattle.eq_classes.specs.work.Building.{AreBoundBy, AreOfRelationsBelow};
    ghost use Rattle.eq_classes.specs.work.Holding.{Fits, hold, IsTableFrom};

    /// The classes and clauses of conjuncts in pushed form, none of them an AND, and an ORDER BY. The conditions are
    /// that each conjunct is well typed, that each column is bound and of a relation below 16, and that there are at
    /// most `MOST_CONJUNCTS` conjuncts. The error means that memory ran out.
    pub fn build<B: Binding>(
        alloc: Global,
        conjuncts: Exprs,
        order: &[OrderItem],
        typed: &B,
    ) -> Result<Classes, Memory>
        requires bound { AreBoundBy (B.binds typed.now) conjuncts.items.items }
        requires typed { AreTyped (B.type_of typed.now) (view.conds conjuncts.items.items) }
        requires order { All (λ i. IsTrue (B.binds typed.now i.col)) order.now }
        requires rels { AreOfRelationsBelow 16 conjuncts.items.items }
        requires order_rels { All (λ i. i.col.rel.0 < 16) order.now }
        requires few { length conjuncts.items.items ≤ MOST_CONJUNCTS }
        ensures table { IfOk result (λ t. IsTableFrom (B.type_of typed.now) conjuncts order.now t) }
        ensures means { IfOk result (λ t. (ws : List Cond) (b : ColRef → Value) (set : Set) →
            map view.cond conjuncts.items.items ≡ conjuncts_in ws → All (IsTyped (B.type_of typed.now)) ws →
            Fits (B.type_of typed.now) b → set 0 ≡ true → All (λ w. each_column (λ x. set x.rel.0) w ≡ true) ws →
            hold b (is_all set) t.clauses ≡ is_true (truth_of_all b (conds_of ws))) }
    {
        Classes::make(alloc, conjuncts, order, typed)
    }

    fn make<B: Binding>(
        alloc: Global,
        conjuncts: Exprs,
        order: &[OrderItem],
        typed: &B,
    ) -> Result<Classes, Memory>
        requires bound { AreBoundBy (B.binds typed.now) conjuncts.items.items }
        requires typed { AreTyped (B.type_of typed.now) (view.conds conjuncts.items.items) }
        requires order { All (λ i. IsTrue (B.binds typed.now i.col)) order.now }
        requires rels { AreOfRelationsBelow 16 conjuncts.items.items }
        requires order_rels { All (λ i. i.col.rel.0 < 16) order.now }
        requires few { length conjuncts.items.items ≤ MOST_CONJUNCTS }
        ensures { IfOk result (λ t. IsTableFrom (B.type_of typed.now) conjuncts order.now t) }
    {
        let classes = make_classes(alloc, conjuncts.items(), order, typed)?;
        let mut clauses = Vec::new(alloc);
        add_conjuncts(&mut clauses, &classes, conjuncts.items, typed)?;
        add_classes(alloc, &mut clauses, &classes)?;
        let named = relations(alloc, &clauses)?;
        Ok(Classes {
            clauses,
            named,
            classes,
        })
    }

    /// The number of clauses, which are numbered from 0.
    pub fn count(&self) -> usize
        ensures count { result ≡ length self.now.clauses }
        ensures few { length self.now.clauses ≤ 512 }
    {
        self.clauses.len()
    }

    fn listed(&self, n: u16) -> &Listed
        requires { n < length self.now.clauses }
        ensures { clause_of self.now.classes result.now ≡ clause_at self.now.clauses n }
    {
        &self.clauses[n as usize]
    }

    /// The relations that the condition of a clause names.
    fn named(&self, n: u16) -> RelSet
        requires { n < length self.now.clauses }
        ensures { (r : ℕ) → has result.0 r ≡ names_rel r (clause_at self.now.clauses n).cond }
    {
        self.named[n as usize]
    }

    /// The condition of a clause.
    pub fn clause(&self, n: u16) -> &Expr
        requires { n < length self.now.clauses }
        ensures { view.cond result.now ≡ (clause_at self.now.clauses n).cond }
    {
        &self.listed(n).expr
    }

    /// The number of a clause's conjunct, from 1. None exactly where a class makes the clause.
    pub fn conjunct(&self, n: u16) -> Option<u16>
        requires { n < length self.now.clauses }
        ensures { result ≡ conjunct_of (clause_at self.now.clauses n).source }
    {
        match self.listed(n).origin {
            Origin::Conjunct(k) => Some(k),
            _ => None,
        }
    }

    /// The class whose pair clause of two relations this is. None exactly where it is no pair clause.
    pub fn pair_class(&self, n: u16) -> Option<ClassNo>
        requires { n < length self.now.clauses }
        ensures { class_no result ≡ pair_class_of (clause_at self.now.clauses n).source }
    {
        match self.listed(n).origin {
            Origin::Pair(c, _, _) => Some(ClassNo(c)),
            _ => None,
        }
    }

    /// The class of a column in a family. None exactly where the column is in no class of the family.
    pub fn class_of(&self, c: ColRef, f: Family) -> Option<ClassNo>
        ensures class { class_no result ≡ class_number self.now.classes (in_family c f) }
        ensures within { IfSome result (λ n. n.0 < length self.now.classes) }
    {
        for n in 0..self.classes.len() {
            if self.classes[n].is_of(f, c) {
                return Some(ClassNo(n as u16));
            }
        }
        None
    }

    /// The class of a column in the family of its type: of the families but that of absolute values. None exactly where
    /// the column is in no such class.
    pub fn plain_class_of(&self, c: ColRef) -> Option<ClassNo>
        ensures class { class_no result ≡ plain_class self.now.classes c }
        ensures within { IfSome result (λ n. n.0 < length self.now.classes) }
    {
        for n in 0..self.classes.len() {
            if self.classes[n].is_plain(c) {
                return Some(ClassNo(n as u16));
            }
        }
        None
    }

    /// Whether a class has a constant.
    pub fn has_constant(&self, c: ClassNo) -> bool
        requires { c.0 < length self.now.classes }
        ensures { result ≡ has_constant (class_at self.now.classes c.0) }
    {
        class_of_number(&self.classes, c.0).has_constant()
    }

    /// The first member of a class inside a set. None exactly where none is.
    pub fn member(&self, c: ClassNo, s: RelSet) -> Option<ColRef>
        requires { c.0 < length self.now.classes }
        ensures { result ≡ first_in (class_at self.now.classes c.0) (has s.0) }
    {
        class_of_number(&self.classes, c.0).first_inside(s)
    }

    /// The direction of a class: whether it is descending, and whether NULL stands first.
    pub fn direction(&self, c: ClassNo) -> (bool, bool)
        requires { c.0 < length self.now.classes }
        ensures { result ≡ sort_direction (class_at self.now.classes c.0) }
    {
        class_of_number(&self.classes, c.0).direction()
    }

    /// The family of a class.
    pub fn family(&self, c: ClassNo) -> Family
        requires { c.0 < length self.now.classes }
        ensures { result ≡ (class_at self.now.classes c.0).family }
    {
        class_of_number(&self.classes, c.0).family()
    }

    /// Whether a clause is inside a set of relations. One without a column belongs to relation 0.
    fn is_inside(&self, n: u16, s: RelSet) -> bool
        requires { n < length self.now.clauses }
        ensures { result ≡ parts.is_inside (has s.0) (clause_at self.now.clauses n).cond }
    {
        let named = self.named(n);
        lies_inside(named.within(s), named.is_empty(), s.has(RelNo(0)))
    }

    /// Whether a clause names some relation of a set.
    fn names_some(&self, n: u16, s: RelSet) -> bool
        requires { n < length self.now.clauses }
        ensures { result ≡ parts.names_some (has s.0) (clause_at self.now.clauses n).cond }
    {
        self.named(n).meets(s)
    }

    /// Whether a class has members in both sets.
    fn has_in_both(&self, n: u16, a: RelSet, b: RelSet) -> bool
        ensures { result ≡ spans (class_at self.now.classes n) (has a.0) (has b.0) }
    {
        match self.classes.get(n as usize) {
            Some(class) => class.has_in(a) && class.has_in(b),
            None => false,
        }
    }

    /// Whether a relation is the lowest one of a set in which a class has a member.
    fn is_lowest(&self, n: u16, s: RelSet, r: RelNo) -> bool
        ensures { result ≡ is_lowest (class_at self.now.classes n) (has s.0) r.0 }
    {
        match self.classes.get(n as usize) {
            Some(class) => is_found(class.lowest(s), r),
            None => false,
        }
    }

    /// Whether two relations are the lowest ones of two sets, either way round.
    fn are_lowest(&self, n: u16, a: RelSet, b: RelSet, l: RelNo, h: RelNo) -> bool
        ensures { result ≡ are_lowest (class_at self.now.classes n) (has a.0) (has b.0) l.0 h.0 }
    {
        (self.is_lowest(n, a, l) && self.is_lowest(n, b, h))
            || (self.is_lowest(n, b, l) && self.is_lowest(n, a, h))
    }

    /// Whether a clause is one of those inside a set.
    fn is_in_all(&self, n: u16, s: RelSet) -> bool
        requires { n < length self.now.clauses }
        ensures { result ≡ is_all (has s.0) (clause_at self.now.clauses n) }
    {
        match self.listed(n).origin {
            Origin::Conjunct(_) | Origin::Class(_) => self.is_inside(n, s),
            Origin::Pair(c, l, h) => self.is_lowest(c, s, l) && s.has(h),
        }
    }

    /// Whether a clause is over one relation alone.
    fn is_in_base(&self, n: u16, r: RelNo) -> bool
        requires number { n < length self.now.clauses }
        requires below { r.0 < 16 }
        ensures { result ≡ is_base r.0 (clause_at self.now.clauses n) }
    {
        self.is_inside(n, single(r))
    }

    /// Whether a clause is one of those that join two sets.
    fn is_in_join(&self, n: u16, a: RelSet, b: RelSet) -> bool
        requires { n < length self.now.clauses }
        ensures { result ≡ is_join (has a.0) (has b.0) (clause_at self.now.clauses n) }
    {
        match self.listed(n).origin {
            Origin::Conjunct(_) => self.is_inside(n, both(a, b))
                && !self.is_inside(n, a)
                && !self.is_inside(n, b),
            Origin::Class(_) => false,
            Origin::Pair(c, l, h) => self.are_lowest(c, a, b, l, h),
        }
    }

    /// Whether a clause is one that a scan of a relation tests itself where it has a parameter.
    fn is_in_param(&self, n: u16, r: RelNo, p: RelSet) -> bool
        requires number { n < length self.now.clauses }
        requires below { r.0 < 16 }
        ensures { result ≡ is_param r.0 (has p.0) (clause_at self.now.clauses n) }
    {
        match self.listed(n).origin {
            Origin::Conjunct(_) => self.is_inside(n, both(single(r), p))
                && self.named(n).has(r)
                && self.names_some(n, p),
            Origin::Class(_) => false,
            Origin::Pair(c, l, h) => self.are_lowest(c, single(r), p, l, h),
        }
    }

    /// Whether a clause is left out of a join with a parameterised scan, since the scan tests it or its class.
    fn is_left_out(&self, n: u16, r: RelNo, p: RelSet) -> bool
        requires number { n < length self.now.clauses }
        requires below { r.0 < 16 }
        ensures { result ≡ is_spared r.0 (has p.0) (clause_at self.now.clauses n) }
    {
        match self.listed(n).origin {
            Origin::Conjunct(_) => self.is_in_param(n, r, p),
            Origin::Class(c) | Origin::Pair(c, _, _) => self.has_in_both(c, single(r), p),
        }
    }

    /// Whether a clause is one of those that join a set with a parameterised scan.
    fn is_in_join_param(&self, n: u16, a: RelSet, r: RelNo, p: RelSet) -> bool
        requires number { n < length self.now.clauses }
        requires below { r.0 < 16 }
        ensures { result ≡ is_join_param (has a.0) r.0 (has p.0) (clause_at self.now.clauses n) }
    {
        self.is_in_join(n, a, single(r)) && !self.is_left_out(n, r, p)
    }

    /// The clauses over a relation alone.
    #[tactic(auto, using(crate::proofs::WordLemmas::grows))]
    pub fn base_clauses(&self, r: RelNo) -> ClauseSet
        requires { r.0 < 16 }
        ensures { (k : ℕ) → contains result k ≡ selects (is_base r.0) self.now k }
    {
        let mut set = ClauseSet::empty();
        for n in 0..self.count() {
            let is = self.is_in_base(n as u16, r);
            note(&mut set, n as u16, is);
        }
        set
    }

    /// The clauses that a scan of a relation tests beside those over it where relations of the set are its parameter.
    #[tactic(auto, using(crate::proofs::WordLemmas::grows))]
    pub fn param_clauses(&self, r: RelNo, p: RelSet) -> ClauseSet
        requires { r.0 < 16 }
        ensures { (k : ℕ) → contains result k ≡ selects (is_param r.0 (has p.0)) self.now k }
    {
        let mut set = ClauseSet::empty();
        for n in 0..self.count() {
            let is = self.is_in_param(n as u16, r, p);
            note(&mut set, n as u16, is);
        }
        set
    }

    /// The clauses that join two sets.
    #[tactic(auto, using(crate::proofs::WordLemmas::grows))]
    pub fn join_clauses(&self, a: RelSet, b: RelSet) -> ClauseSet
        ensures { (k : ℕ) → contains result k ≡ selects (is_join (has a.0) (has b.0)) self.now k }
    {
        let mut set = ClauseSet::empty();
        for n in 0..self.count() {
            let is = self.is_in_join(n as u16, a, b);
            note(&mut set, n as u16, is);
        }
        set
    }

    /// The clauses that join a set with a scan of a relation whose parameter is of the set.
    #[tactic(auto, using(crate::proofs::WordLemmas::grows))]
    pub fn join_param_clauses(&self, a: RelSet, r: RelNo, p: RelSet) -> ClauseSet
        requires { r.0 < 16 }
        ensures { (k : ℕ) → contains result k ≡ selects (is_join_param (has a.0) r.0 (has p.0)) self.now k }
    {
        let mut set = ClauseSet::empty();
        for n in 0..self.count() {
            let is = self.is_in_join_param(n as u16, a, r, p);
            note(&mut set, n as u16, is);
        }
        set
    }

    /// The clauses inside a set.
    #[tactic(auto, using(crate::proofs::WordLemmas::grows))]
    pub fn all_clauses(&self, s: RelSet) -> ClauseSet
        ensures { (k : ℕ) → contains result k ≡ selects (is_all (has s.0)) self.now k }
    {
        let mut set = ClauseSet::empty();
        for n in 0..self.count() {
            let is = self.is_in_all(n as u16, s);
            note(&mut set, n as u16, is);
        }
        set
    }

    /// The first joining class of two sets from a number on, with the number after it.
    fn next_joining(&self, a: RelSet, b: RelSet, from: usize) -> (Option<ClassNo>, usize)
        requires { from ≤ length self.now.classes }
        ensures next { GivesNextJoining (has a.0) (has b.0) self.now.classes from result }
        ensures within { result.1 ≤ length self.now.classes }
        ensures found { IfSome result.0 (λ n. n.0 < length self.now.classes) }
        ensures none { IfNone result.0 (result.1 ≡ length self.now.classes) }
    {
        for n in from..self.classes.len() {
            if !self.classes[n].has_constant()
                && self.classes[n].has_in(a)
                && self.classes[n].has_in(b)
            {
                return (Some(ClassNo(n as u16)), n + 1);
            }
        }
        (None, self.classes.len())
    }

    /// The first four joining classes of two sets: those without a constant that have members in both, by number.
    pub fn joining(&self, a: RelSet, b: RelSet) -> [Option<ClassNo>; 4]
        ensures joining { map class_no result ≡ first_joining (has a.0) (has b.0) self.now.classes }
        ensures within { All (λ found. IfSome found (λ n. n.0 < length self.now.classes)) result }
    {
        let (first, after) = self.next_joining(a, b, 0);
        let (second, after) = self.next_joining(a, b, after);
        let (third, after) = self.next_joining(a, b, after);
        let (fourth, _) = self.next_joining(a, b, after);
        [first, second, third, fourth]
    }
}

/// Whether a condition is inside a set, from whether its relations are, it has none, and relation 0 is.
fn lies_inside(within: bool, empty: bool, zero: bool) -> bool
    ensures { result ≡ within && (not empty || zero) }
{
    within && (!empty || zero)
}

/// Whether the relation is the one that was found.
fn is_found(found: Option<RelNo>, r: RelNo) -> bool
    ensures { result ≡ is_number found r.0 }
{
    match found {
        Some(k) => k.0 == r.0,
        None => false,
    }
}

/// The relations that each clause names.
fn relations(alloc: Global, clauses: &[Listed]) -> Result<Vec<RelSet>, Memory>
    requires { All (λ k. IsTrue (rels_below 16 (view.cond k.expr))) clauses.now }
    ensures { IfOk result (λ named. AreNamed named.items clauses.now) }
{
    let mut named = Vec::new(alloc);
    for k in clauses {
        named.push(rels(&k.expr))?;
    }
    Ok(named)
}
