//! Shares of rows that meet a comparison, in parts per 10^9.

ghost use Rattle.std.specs.Prelude.{◌≡◌, ◌≤◌, ◌<◌, ◌^◌, ◌*◌, ◌/◌, ◌-◌, false, None, All, length};
ghost use Rattle.pg_value.specs.Truths.{AreComparable, is_absolute};
ghost use Rattle.catalog.specs.Statistics.{Common, shares};
ghost use Rattle.catalog.specs.declared.limits.TheConstants.{MOST_COMMON, MOST_BOUNDS, WHOLE_SHARE};
ghost use Rattle.path_cost.specs.Selectivity as sel;
ghost use Rattle.path_cost.specs.work.Selectivity as sel_work;
ghost use Rattle.path_cost.specs.Selectivity.{count_holding};
ghost use Rattle.path_cost.specs.work.Known.{IsLawfulKnown, SuitsColumn, statistics_of};

use crate::known::Known;
use catalog::WHOLE_SHARE;
use pg_value::{Op, Truth, Value, apply};

/// All rows, in parts per 10^9.
pub const ALL_ROWS: u64 = 1_000_000_000;
/// Parts per 10^9 of a share of one in a million.
pub const PER_SHARE: u64 = 1_000;
/// An inequality of which nothing is known holds at a third of the rows.
pub const THIRD: u64 = 333_333_333;
/// A boolean column is taken to be true in half of the rows.
pub const HALF: u64 = 500_000_000;
/// A column of which nothing is known is taken to have at most so many different values.
pub const UNKNOWN_DISTINCT: u64 = 200;
/// A column of which nothing is known is taken to be NULL in one of 200 rows.
pub const UNKNOWN_NULLS: u64 = 5_000_000;

/// Whether a comparison of two values is true.
pub(crate) fn holds(op: Op, a: &Value, b: &Value) -> bool
    requires { AreComparable op a.now b.now }
    ensures { result ≡ sel.comparison_holds op a.now b.now }
{
    apply(op, a, b) == Truth::True
}

/// The shares of common values together.
fn sum_of(common: &[(Value, u32)]) -> u64
    requires few { length common.now ≤ MOST_COMMON }
    ensures sum { result ≡ shares common.now }
{
    let mut sum = 0;
    for n in 0..common.len() {
        sum += u64::from(common[n].1);
    }
    sum
}

/// The shares of the common values that meet a comparison.
fn sum_met(op: Op, common: &[(Value, u32)], v: &Value) -> u64
    requires few { length common.now ≤ MOST_COMMON }
    requires comparable { All (λ (p : Common). AreComparable op p.0 v.now) common.now }
    ensures sum { result ≡ sel.shares_met op common.now v.now }
    ensures small { result ≤ 2 ^ 40 }
{
    let mut sum = 0;
    for p in common {
        if holds(op, &p.0, v) {
            sum += u64::from(p.1);
        }
    }
    sum
}

/// The share of a common value that equals a literal. None where no common value does.
fn common_share(common: &[(Value, u32)], v: &Value) -> Option<u32>
    requires { All (λ (p : Common). AreComparable Op.Eq p.0 v.now) common.now }
    ensures { result ≡ sel.share_among common.now v.now }
{
    for p in common {
        if holds(Op::Eq, &p.0, v) {
            return Some(p.1);
        }
    }
    None
}

/// The share of the rows without NULL, in parts per million.
fn valued(k: &Known) -> u64
    requires { IsLawfulKnown k.now }
    ensures value { result ≡ sel.valued (statistics_of k.now) }
    ensures part { result ≤ WHOLE_SHARE }
{
    u64::from(WHOLE_SHARE - k.nulls)
}

/// The share of the rows that are neither NULL nor of a common value, in parts per million.
fn uncommon(k: &Known) -> u64
    requires { IsLawfulKnown k.now }
    ensures value { result ≡ sel.uncommon (statistics_of k.now) }
    ensures part { result ≤ WHOLE_SHARE }
{
    u64::from(WHOLE_SHARE) - u64::from(k.nulls) - sum_of(k.common)
}

/// The comparison by which a bound of the histogram is passed: below the literal for `<` and `>=`, not above it for the
/// others.
fn passing(op: Op) -> Op
    ensures table { result ≡ sel.passing op }
    ensures plain { is_absolute result ≡ false }
{
    match op {
        Op::Lt | Op::Ge => Op::Lt,
        _ => Op::Le,
    }
}

/// How many bounds of a histogram a literal passes. They stand first, since the bounds rise, so it is found by halves.
#[tactic(auto, using(crate::proofs::KindLemmas::bounds_compare))]
fn passed(op: Op, k: &Known, v: &Value) -> usize
    requires lawful { IsLawfulKnown k.now }
    requires suits { SuitsColumn k.now v.now }
    ensures count { result ≡ sel.bounds_passed op k.now.histogram.now v.now }
    ensures few { result ≤ length k.now.histogram.now }
{
    let below = passing(op);
    let mut from = 0;
    let mut to = k.histogram.len();
    while from < to {
        let mid = from + (to - from) / 2;
        if holds(below, &k.histogram[mid], v) {
            from = mid + 1;
        } else {
            to = mid;
        }
    }
    from
}

/// How far a whole number is from another.
fn apart(a: i64, b: i64) -> u128
    ensures way { result ≡ sel.apart a b }
    ensures most { result ≤ 2 ^ 64 - 1 }
{
    (i128::from(b) - i128::from(a)).unsigned_abs()
}

/// Twice the way to a literal that is so far above a bound: half a unit less or more.
fn twice_up(op: Op, way: u128) -> u128
    requires most { way ≤ 2 ^ 64 - 1 }
    ensures value { result ≡ sel.twice_up op way }
    ensures most { result ≤ 2 ^ 65 }
{
    match op {
        Op::Lt | Op::Ge => (2 * way).saturating_sub(1),
        _ => 2 * way + 1,
    }
}

/// How wide the step between two bounds is, and twice the way to a literal in it.
fn step_of(op: Op, a: &Value, b: &Value, v: &Value) -> (u128, u128)
    ensures value { result ≡ sel.histogram_step op a.now b.now v.now }
    ensures width { result.0 ≤ 2 ^ 64 - 1 }
    ensures way { result.1 ≤ 2 ^ 65 }
{
    match (a, b, v) {
        (Value::Int(a), Value::Int(b), Value::Int(v)) => {
            (apart(*a, *b), twice_up(op, apart(*a, *v)))
        }
        _ => (1, 1),
    }
}

/// Parts of a whole before a literal in the step behind `j` of `k` bounds, by the step's width and twice the way in it.
fn place_in(k: u64, j: u64, step: (u128, u128)) -> (u128, u128)
    requires few { k ≤ 101 }
    requires some { 1 ≤ j }
    requires within { j < k }
    requires width { step.0 ≤ 2 ^ 64 - 1 }
    requires way { step.1 ≤ 2 ^ 65 }
    ensures value { result ≡ sel.part_below_literal k j step }
    ensures most { result.1 ≤ 2 ^ 72 }
{
    let (k, j) = (u128::from(k), u128::from(j));
    ((2 * j - 2) * step.0 + step.1, 2 * (k - 1) * step.0)
}

/// Parts of a whole before a literal: none, all, or to its place in a step of the histogram.
fn place(op: Op, k: &Known, v: &Value) -> (u128, u128)
    requires lawful { IsLawfulKnown k.now }
    requires suits { SuitsColumn k.now v.now }
    requires some { 1 ≤ length k.now.histogram.now }
    ensures value { result ≡ sel.place op (statistics_of k.now) v.now (sel.bounds_passed op k.now.histogram.now v.now) }
    ensures most { result.1 ≤ 2 ^ 72 }
{
    let bounds = k.histogram.len();
    let all = 2 * (bounds as u128 - 1);
    let j = passed(op, k, v);
    if j == 0 {
        return (0, all);
    }
    if j == bounds {
        return (all, all);
    }
    let step = step_of(op, &k.histogram[j - 1], &k.histogram[j], v);
    place_in(bounds as u64, j as u64, step)
}

/// The parts at which an inequality holds.
fn met_of(op: Op, place: (u128, u128)) -> u128
    ensures { result ≡ sel.met_of op place }
{
    match op {
        Op::Lt | Op::Le => place.0,
        _ => place.1.saturating_sub(place.0),
    }
}

/// Parts of a whole, of a share.
#[tactic(auto, using(crate::proofs::PlaceLemmas::part_fits))]
fn part_of(share: u64, parts: u128, whole: u128) -> u64
    requires share { share ≤ 1_000_000_000 }
    requires within { parts ≤ whole }
    requires some { 1 ≤ whole }
    requires most { whole ≤ 2 ^ 72 }
    ensures value { result ≡ share * parts / whole }
    ensures part { result ≤ share }
{
    (u128::from(share) * parts / whole) as u64
}

/// A column beside a literal with an inequality, by the histogram.
#[tactic(auto, using(crate::proofs::KindLemmas::common_compare))]
fn by_histogram(op: Op, k: &Known, v: &Value) -> u64
    requires lawful { IsLawfulKnown k.now }
    requires suits { SuitsColumn k.now v.now }
    requires plain { is_absolute op ≡ false }
    requires some { 1 ≤ length k.now.histogram.now }
    ensures { result ≡ sel.by_histogram op (statistics_of k.now) v.now }
{
    let place = place(op, k, v);
    let parts = met_of(op, place);
    let between = part_of(PER_SHARE * uncommon(k), parts, place.1);
    PER_SHARE * sum_met(op, k.common, v) + between
}

/// A column beside a literal with an inequality, by the histogram where there is one, else a third.
fn inequality(op: Op, k: &Known, v: &Value) -> u64
    requires lawful { IsLawfulKnown k.now }
    requires suits { SuitsColumn k.now v.now }
    requires plain { is_absolute op ≡ false }
    ensures { result ≡ sel.inequality op (statistics_of k.now) v.now }
{
    if k.histogram.len() == 0 {
        return THIRD;
    }
    by_histogram(op, k, v)
}

/// Both ends of a range of a column together: what both leave, and at least what one value that is not common has, but no
/// more than each end alone.
pub(crate) fn range_share(k: &Known, a: u64, b: u64) -> u64
    requires lawful { IsLawfulKnown k.now }
    requires left { a ≤ 1_000_000_000 }
    requires right { b ≤ 1_000_000_000 }
    ensures share { result ≡ sel.range_share (statistics_of k.now) a b }
{
    (a + b)
        .saturating_sub(PER_SHARE * valued(k))
        .max(a.min(b).min(even_part(k)))
}

/// The share of each value that is not common.
fn even_part(k: &Known) -> u64
    requires lawful { IsLawfulKnown k.now }
    ensures share { result ≡ sel.equal_by (statistics_of k.now) None }
{
    let others = k.distinct.saturating_sub(k.common.len() as u64).max(1);
    PER_SHARE * uncommon(k) / others
}

/// A column equal to a literal: the share of the common value, else an even part of what is not common.
#[tactic(auto, using(crate::proofs::KindLemmas::common_equal))]
fn equal_to(k: &Known, v: &Value) -> u64
    requires lawful { IsLawfulKnown k.now }
    requires suits { SuitsColumn k.now v.now }
    ensures { result ≡ sel.equal_share (statistics_of k.now) v.now }
{
    match common_share(k.common, v) {
        Some(share) => PER_SHARE * u64::from(share),
        None => even_part(k),
    }
}

/// A column beside a literal that is not NULL.
#[tactic(auto, using(crate::proofs::ShareLemmas::column_share))]
pub(crate) fn column_literal(op: Op, k: &Known, v: &Value) -> u64
    requires lawful { IsLawfulKnown k.now }
    requires suits { SuitsColumn k.now v.now }
    ensures share { result ≡ sel.column_literal op (statistics_of k.now) v.now }
    ensures part { result ≤ 1_000_000_000 }
{
    match op {
        Op::Eq => equal_to(k, v),
        Op::AbsEq => PER_SHARE * valued(k) / k.distinct,
        Op::Ne => (PER_SHARE * valued(k)).saturating_sub(equal_to(k, v)),
        Op::Lt => inequality(Op::Lt, k, v),
        Op::Le => inequality(Op::Le, k, v),
        Op::Ge => inequality(Op::Ge, k, v),
        Op::Gt => inequality(Op::Gt, k, v),
        Op::AbsLt | Op::AbsLe | Op::AbsGe | Op::AbsGt => THIRD,
    }
}

/// Two columns that are equal: the rows without NULL in both, over the greater number of different values.
#[tactic(auto, using(crate::proofs::ShareLemmas::columns_share))]
fn equal_columns(a: &Known, b: &Known) -> u64
    requires left { IsLawfulKnown a.now }
    requires right { IsLawfulKnown b.now }
    ensures value { result ≡ sel.equal_columns (statistics_of a.now) (statistics_of b.now) }
    ensures part { result ≤ 1_000_000_000 }
{
    let pairs = u128::from(ALL_ROWS * valued(a)) * u128::from(valued(b));
    let whole = u128::from(WHOLE_SHARE) * u128::from(WHOLE_SHARE);
    (pairs / (whole * u128::from(a.distinct.max(b.distinct)))) as u64
}

/// Two columns beside an operator.
pub(crate) fn two_columns(op: Op, a: &Known, b: &Known) -> u64
    requires left { IsLawfulKnown a.now }
    requires right { IsLawfulKnown b.now }
    ensures share { result ≡ sel.two_columns op (statistics_of a.now) (statistics_of b.now) }
    ensures part { result ≤ 1_000_000_000 }
{
    match op {
        Op::Eq | Op::AbsEq => equal_columns(a, b),
        Op::Ne => ALL_ROWS - equal_columns(a, b),
        _ => THIRD,
    }
}
