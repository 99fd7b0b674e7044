//! The numbered clause list.

ghost use Rattle.std.specs.Prelude.{◌≡◌, ◌<◌, ◌+◌, ◌^◌, Some, ◌∷◌, [], length, IfSome, IfNone, OnOk, IsTrue};
ghost use Rattle.pg_expr.specs.Columns.{each_column};
ghost use Rattle.pg_expr.specs.Cond.{is_not_null};
ghost use Rattle.pg_expr.specs.Typed.{IsTyped, AreTyped};
ghost use Rattle.pg_expr.specs.work.View as view;
ghost use Rattle.eq_classes.specs.Equality as specs_equality;
ghost use Rattle.eq_classes.specs.work.Equality as specs_equality_work;
ghost use Rattle.eq_classes.specs.Clauses.{clause, one, clauses_from};
ghost use Rattle.eq_classes.specs.Listing.{class_at};
ghost use Rattle.eq_classes.specs.work.Listing.{Gains, own_clause, paired_at, column_constants, inner_clause_at, inner_of, inner_clauses_at, constant_clauses_at, class_clauses_at, coupled, pairings, GainsConjunct, GainsConjuncts};
ghost use Rattle.eq_classes.specs.work.Equality.{listed_as};
ghost use Rattle.eq_classes.specs.work.Building.{AreBoundBy};

use crate::class::EqClass;
use crate::equality::{equality, equality_operator, family_of_equality, same_column};
use opfamily::pg_base::{Memory, RelNo};
use pg_expr::{Binding, ColRef, Expr, Operand};
use std::alloc::Global;

/// What a clause comes from.
#[derive(Clone, Copy, Debug, PartialEq, Eq)]
pub enum Origin {
    /// The conjunct of a number, from 1.
    Conjunct(u16),
    /// The class of a number, over one relation.
    Class(u16),
    /// The class of a number, as the pair clause of two relations.
    Pair(u16, RelNo, RelNo),
}

/// A clause with what it comes from.
pub struct Listed {
    /// The condition.
    pub expr: Expr,
    /// What it comes from.
    pub origin: Origin,
}

impl Drop for Listed {
    fn drop(self) {
        let Listed { expr: _, origin: _ } = self;
    }
}

/// The class of a number.
pub fn class_of_number(classes: &[EqClass], n: u16) -> &EqClass
    requires { n < length classes.now }
    ensures { result.now ≡ class_at classes.now n }
{
    &classes[n as usize]
}

/// A conjunct as it stands in the clause list.
fn as_clause<B: Binding>(k: Expr, typed: &B) -> Expr
    requires { IsTrue (each_column (B.binds typed.now) (view.cond k)) }
    ensures { view.cond result ≡ specs_equality.as_clause (B.type_of typed.now) (view.cond k) }
{
    match self_equality(&k, typed) {
        Some(c) => Expr::IsNotNull(c),
        None => k,
    }
}

/// The column of `x = x`.
fn self_equality<B: Binding>(k: &Expr, typed: &B) -> Option<ColRef>
    requires { IsTrue (each_column (B.binds typed.now) (view.cond k.now)) }
    ensures some { IfSome result (λ c. listed_as (B.type_of typed.now) k.now ≡ is_not_null c) }
    ensures none { IfNone result (listed_as (B.type_of typed.now) k.now ≡ view.cond k.now) }
{
    match k {
        Expr::Compare(op, l, r) => match l {
            Operand::Col(c) => match r {
                Operand::Col(d) => {
                    if same_column(*c, *d) && family_of_equality(*op, typed.typed(*c)).is_some() {
                        Some(*c)
                    } else {
                        None
                    }
                }
                Operand::Lit(_) => None,
            },
            Operand::Lit(_) => None,
        },
        _ => None,
    }
}

fn push_own(out: &mut Vec<Listed>, classes: &[EqClass], n: u16, expr: Expr) -> Result<(), Memory>
    ensures { OnOk result (Gains classes.now out.old out.new (own_clause classes.now n expr ∷ [])) }
{
    out.push(Listed {
        expr,
        origin: Origin::Class(n),
    })?;
    Ok(())
}

fn push_pair(
    out: &mut Vec<Listed>,
    classes: &[EqClass],
    n: u16,
    x: ColRef,
    y: ColRef,
) -> Result<(), Memory>
    requires { n < length classes.now }
    ensures { OnOk result (Gains classes.now out.old out.new (paired_at classes.now n x y ∷ [])) }
{
    let op = equality_operator(class_of_number(classes, n).family());
    out.push(Listed {
        expr: Expr::Compare(op, Operand::Col(x), Operand::Col(y)),
        origin: Origin::Pair(n, x.rel, y.rel),
    })?;
    Ok(())
}

/// `column = constant` for every constant.
fn constant_row(
    alloc: Global,
    out: &mut Vec<Listed>,
    classes: &[EqClass],
    n: u16,
    x: ColRef,
) -> Result<(), Memory>
    requires { n < length classes.now }
    ensures { OnOk result (Gains classes.now out.old out.new (column_constants classes.now n x)) }
{
    let class = class_of_number(classes, n);
    for v in class.constants() {
        let op = equality_operator(class.family());
        let constant = v.copy(alloc)?;
        push_own(
            out,
            classes,
            n,
            Expr::Compare(op, Operand::Col(x), Operand::Lit(constant)),
        )?;
    }
    Ok(())
}

fn all_constants(
    alloc: Global,
    out: &mut Vec<Listed>,
    classes: &[EqClass],
    n: u16,
) -> Result<(), Memory>
    requires { n < length classes.now }
    ensures { OnOk result (Gains classes.now out.old out.new (constant_clauses_at classes.now n)) }
{
    for x in class_of_number(classes, n).members() {
        constant_row(alloc, out, classes, n, *x)?;
    }
    Ok(())
}

/// `first member of its relation = member`, where they differ.
fn inner_row(out: &mut Vec<Listed>, classes: &[EqClass], n: u16, x: ColRef) -> Result<(), Memory>
    requires { n < length classes.now }
    ensures { OnOk result (Gains classes.now out.old out.new (inner_clause_at classes.now n x)) }
{
    let class = class_of_number(classes, n);
    match class.first_of(x.rel) {
        Some(first) => {
            if same_column(x, first) {
                return Ok(());
            }
            let op = equality_operator(class.family());
            push_own(
                out,
                classes,
                n,
                Expr::Compare(op, Operand::Col(first), Operand::Col(x)),
            )
        }
        None => Ok(()),
    }
}

fn inner_rows(
    out: &mut Vec<Listed>,
    classes: &[EqClass],
    n: u16,
    members: &[ColRef],
) -> Result<(), Memory>
    requires { n < length classes.now }
    ensures { OnOk result (Gains classes.now out.old out.new (inner_of classes.now n members.now)) }
{
    for x in members {
        inner_row(out, classes, n, *x)?;
    }
    Ok(())
}

fn all_inner(out: &mut Vec<Listed>, classes: &[EqClass], n: u16) -> Result<(), Memory>
    requires { n < length classes.now }
    ensures { OnOk result (Gains classes.now out.old out.new (inner_clauses_at classes.now n)) }
{
    inner_rows(out, classes, n, class_of_number(classes, n).members())
}

fn pair_row(
    out: &mut Vec<Listed>,
    classes: &[EqClass],
    n: u16,
    x: ColRef,
    others: &[ColRef],
) -> Result<(), Memory>
    requires { n < length classes.now }
    ensures { OnOk result (Gains classes.now out.old out.new (coupled classes.now n x others.now)) }
{
    for y in others {
        push_pair(out, classes, n, x, *y)?;
    }
    Ok(())
}

fn each_with_later(
    out: &mut Vec<Listed>,
    classes: &[EqClass],
    n: u16,
    firsts: &[ColRef],
) -> Result<(), Memory>
    requires { n < length classes.now }
    ensures { OnOk result (Gains classes.now out.old out.new (pairings classes.now n firsts.now)) }
{
    for i in 0..firsts.len() {
        pair_row(out, classes, n, firsts[i], &firsts[i + 1..])?;
    }
    Ok(())
}

/// The clauses of a class.
fn add_class(
    alloc: Global,
    out: &mut Vec<Listed>,
    classes: &[EqClass],
    n: u16,
) -> Result<(), Memory>
    requires { n < length classes.now }
    ensures { OnOk result (Gains classes.now out.old out.new (class_clauses_at classes.now n)) }
{
    let class = class_of_number(classes, n);
    if class.has_constant() {
        return all_constants(alloc, out, classes, n);
    }
    all_inner(out, classes, n)?;
    let firsts = class.firsts(alloc)?;
    each_with_later(out, classes, n, &firsts)
}

/// The clauses of all classes, class by class.
pub fn add_classes(alloc: Global, out: &mut Vec<Listed>, classes: &[EqClass]) -> Result<(), Memory>
    requires { length classes.now < 2 ^ 16 }
    ensures { OnOk result (Gains classes.now out.old out.new (clauses_from 0 classes.now)) }
{
    for n in 0..classes.len() {
        add_class(alloc, out, classes, n as u16)?;
    }
    Ok(())
}

/// A conjunct that is no equality conjunct, as a clause.
#[tactic(auto, using(crate::proofs::SearchLemmas::conjuncts))]
fn add_conjunct<B: Binding>(
    out: &mut Vec<Listed>,
    classes: &[EqClass],
    k: Expr,
    n: u16,
    typed: &B,
) -> Result<(), Memory>
    requires bound { IsTrue (each_column (B.binds typed.now) (view.cond k)) }
    requires typed { IsTyped (B.type_of typed.now) (view.cond k) }
    ensures { OnOk result (GainsConjunct (B.type_of typed.now) classes.now n k out.old out.new) }
{
    if equality(&k, typed).is_some() {
        return Ok(());
    }
    out.push(Listed {
        expr: as_clause(k, typed),
        origin: Origin::Conjunct(n),
    })?;
    Ok(())
}

/// The conjunct clauses.
#[tactic(auto, using(crate::proofs::SearchLemmas::conjuncts))]
pub fn add_conjuncts<B: Binding>(
    out: &mut Vec<Listed>,
    classes: &[EqClass],
    conjuncts: Vec<Expr>,
    typed: &B,
) -> Result<(), Memory>
    requires bound { AreBoundBy (B.binds typed.now) conjuncts.items }
    requires typed { AreTyped (B.type_of typed.now) (view.conds conjuncts.items) }
    requires few { length conjuncts.items < 2 ^ 15 }
    ensures { OnOk result (GainsConjuncts (B.type_of typed.now) classes.now conjuncts out.old out.new) }
{
    let mut n = 1;
    for k in conjuncts {
        add_conjunct(out, classes, k, n, typed)?;
        n += 1;
    }
    Ok(())
}
