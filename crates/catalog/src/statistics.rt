//! What is known of a column, and what of it is refused.

ghost use Rattle.std.specs.Prelude.{◌≡◌, ◌<◌, ◌≤◌, ◌+◌, ◌^◌, All, MatchOption, length, map, slice_index_or, take};
ghost use Rattle.std.specs.List.{list_any};
ghost use Rattle.opfamily.specs.pg_value_value_SqlType.{SqlType};
ghost use Rattle.catalog.specs.work.Known.{statistics};
ghost use Rattle.catalog.specs.Statistics.{AreAllowed, AreValuesOf, Common, IsFirstRefused, IsValueOf, is_below, is_bound_refused, is_common_refused, is_count as is_a_count, is_equal, is_refused, is_share_refused, no_common, shares};

use crate::limits::{MOST_BOUNDS, MOST_COMMON, MOST_NUMBER, WHOLE_SHARE};
use opfamily::pg_value::{Op, Truth, Value, apply};
use std::marker::Model;

/// What is known of a column. Shares are in parts per million of the table's rows.
#[derive(Debug)]
pub struct ColumnStats {
    /// How many different values it has, NULL not counted.
    pub distinct: u64,
    /// The share of NULLs.
    pub nulls: u32,
    /// Common values, each with its share.
    pub common: Vec<(Value, u32)>,
    /// The bounds of a histogram, rising: between two neighbours stand equally many of the rows that are neither NULL
    /// nor of a common value.
    pub histogram: Vec<Value>,
}

impl Drop for ColumnStats {
    fn drop(self) {
        let ColumnStats {
            distinct: _,
            nulls: _,
            common: _,
            histogram: _,
        } = self;
    }
}

/// What is known of some columns, from the left. Contracts see the list.
#[derive(Debug)]
pub struct ColumnList {
    columns: Vec<ColumnStats>,
}

impl Drop for ColumnList {
    fn drop(self) {
        let ColumnList { columns: _ } = self;
    }
}

impl Model for ColumnList {
    ghost use Rattle.std.specs.Prelude.{List, map};
    ghost use Rattle.catalog.specs.work.Known.{statistics};
    ghost use Rattle.catalog.specs.Statistics.{Statistics};

    ghost Value = { List Statistics };

    ghost view = { λ l. map statistics l.columns.items };
}

impl ColumnList {
    /// The list of these.
    pub fn from_vec(v: Vec<ColumnStats>) -> ColumnList
        ensures { result ≡ map statistics v.items }
    {
        ColumnList { columns: v }
    }

    /// What is known of each, itself.
    pub(crate) fn into_vec(self) -> Vec<ColumnStats>
        ensures { map statistics result.items ≡ self }
    {
        let ColumnList { columns } = self;
        columns
    }

    /// What is known of each, lent.
    pub fn items(&self) -> &[ColumnStats]
        ensures { map statistics result.now ≡ self.now }
    {
        &self.columns
    }
}

/// What is known of a table: its rows and pages, and its columns.
#[derive(Debug, Drop)]
pub struct TableStats {
    /// Its rows.
    pub rows: u64,
    /// Its pages.
    pub pages: u64,
    /// What is known of each of its columns, from the left.
    pub columns: ColumnList,
}

/// Whether a number is one of rows, of pages or of different values: 1 to 10^9.
pub(crate) fn is_count(n: u64) -> bool
    ensures { result ≡ is_a_count n }
{
    1 <= n && n <= MOST_NUMBER
}

/// The first place, in text order from 0, at which a number or a literal is refused; None where nothing is. DISTINCT
/// and NULLS are places 0 and 1; after them come each common value and its share, then the bounds. No value is NULL,
/// and all are of one type.
pub(crate) fn first_refused(s: &ColumnStats) -> Option<u8>
    requires { (t : SqlType) × AreValuesOf t (statistics s.now) }
    ensures { MatchOption result (AreAllowed (statistics s.now)) (IsFirstRefused (statistics s.now)) }
{
    for place in 0..u8::MAX {
        if is_refused_at(s, place) {
            return Some(place);
        }
    }
    None
}

/// Whether the number or the literal at a place is refused.
fn is_refused_at(s: &ColumnStats, place: u8) -> bool
    requires { (t : SqlType) × AreValuesOf t (statistics s.now) }
    ensures { result ≡ is_refused (statistics s.now) place }
{
    if place == 0 {
        return !is_count(s.distinct);
    }
    if place == 1 {
        return s.nulls > WHOLE_SHARE;
    }
    let place = usize::from(place);
    let pair = place / 2 - 1;
    if pair < s.common.len() {
        return if place % 2 == 0 {
            is_value_refused(s, pair)
        } else {
            is_part_refused(s, pair)
        };
    }
    let bound = place - (2 + 2 * s.common.len());
    bound < s.histogram.len() && is_step_refused(s, bound)
}

/// Whether a common value is one too many, equals an earlier one, or makes more values than there are.
fn is_value_refused(s: &ColumnStats, k: usize) -> bool
    requires values { (t : SqlType) × AreValuesOf t (statistics s.now) }
    requires within { k < length s.now.common.items }
    ensures { result ≡ is_common_refused (statistics s.now) k }
{
    k >= MOST_COMMON || s.distinct <= k as u64 || stands_before(&s.common, k)
}

/// Whether a common value equals an earlier one.
fn stands_before(common: &[(Value, u32)], k: usize) -> bool
    requires values { (t : SqlType) × All (λ (p : Common). IsValueOf t p.0) common.now }
    requires within { k < length common.now }
    ensures { result ≡ list_any (λ (p : Common). is_equal p.0 (slice_index_or common.now k no_common).0) (take k common.now) }
{
    let (sought, _) = &common[k];
    for n in 0..k {
        if are_equal(&common[n].0, sought) {
            return true;
        }
    }
    false
}

/// Whether a share is 0, or passes with the NULLs and the shares before it the whole.
fn is_part_refused(s: &ColumnStats, k: usize) -> bool
    requires within { k < length s.now.common.items }
    requires few { k < 2 ^ 8 }
    ensures { result ≡ is_share_refused (statistics s.now) k }
{
    s.common[k].1 == 0 || u64::from(s.nulls) + sum_of(&s.common[..k + 1]) > u64::from(WHOLE_SHARE)
}

/// The shares of common values together.
fn sum_of(common: &[(Value, u32)]) -> u64
    requires { length common.now ≤ 2 ^ 8 }
    ensures sum { result ≡ shares common.now }
    ensures small { result ≤ 2 ^ 40 }
{
    let mut sum = 0;
    for n in 0..common.len() {
        sum += u64::from(common[n].1);
    }
    sum
}

/// Whether a bound is one too many, the only one, or below the one before it.
fn is_step_refused(s: &ColumnStats, k: usize) -> bool
    requires values { (t : SqlType) × AreValuesOf t (statistics s.now) }
    requires within { k < length s.now.histogram.items }
    ensures { result ≡ is_bound_refused (statistics s.now) k }
{
    let bounds = &s.histogram;
    k >= MOST_BOUNDS || bounds.len() == 1 || (k > 0 && is_less(&bounds[k], &bounds[k - 1]))
}

/// Whether two values of one type are equal in its default family.
fn are_equal(a: &Value, b: &Value) -> bool
    requires { (t : SqlType) × IsValueOf t a.now × IsValueOf t b.now }
    ensures { result ≡ is_equal a.now b.now }
{
    apply(Op::Eq, a, b) == Truth::True
}

/// Whether the first of two values of one type is below the second in its default family.
fn is_less(a: &Value, b: &Value) -> bool
    requires { (t : SqlType) × IsValueOf t a.now × IsValueOf t b.now }
    ensures { result ≡ is_below a.now b.now }
{
    apply(Op::Lt, a, b) == Truth::True
}
