//! What grouping costs.

ghost use Rattle.std.specs.Prelude.{◌≡◌, ◌≤◌, ◌*◌, ◌^◌, min};
ghost use Rattle.cost_rules.specs.work.Costs.{IsEstimate, capped};
ghost use Rattle.cost_rules.specs.declared.parameters.TheConstants.{MOST_COST, MOST_ESTIMATE};
ghost use Rattle.group_values.specs.GroupCosts.{combinations, row_tests};
ghost use Rattle.group_values.specs.work.GroupCosts.{IsTask, group_cost, group_total, groups_of, sorts_after};

use crate::Form;
use crate::task::GroupTask;
use cost_rules::{MOST_COST, OPERATOR, Pair, TUPLE, sort};

/// How many groups there are taken to be: as many as there are lists of different values, but no more than rows.
pub fn groups(task: &GroupTask) -> u64
    requires { IsTask task.now }
    ensures groups { result ≡ groups_of task.now }
    ensures estimate { IsEstimate result }
{
    lists_of_values(&task.distinct, task.rows)
}

/// How many lists of one value each there are, cut to at most so many.
fn lists_of_values(distinct: &[u64], most: u64) -> u64
    requires some { 1 ≤ most }
    requires few { most ≤ MOST_ESTIMATE }
    ensures { result ≡ min most (combinations distinct.now) }
{
    let mut lists = 1;
    for count in distinct {
        lists = times(lists, *count, most);
    }
    lists
}

/// A product, cut to at most so much.
fn times(a: u64, b: u64, most: u64) -> u64
    ensures product { result ≡ min most (a * b) }
    ensures few { result ≤ most }
{
    (u128::from(a) * u128::from(b)).min(u128::from(most)) as u64
}

/// Whether a sort of the groups stands on top of a form.
pub(crate) fn sorts_after(form: Form, task: &GroupTask) -> bool
    ensures { result ≡ sorts_after form task.now }
{
    match form {
        Form::Sorted => task.sort_sorted,
        Form::Hashed => task.sort_hashed,
    }
}

/// The tests that each row takes: one for each key and each call, and another for each key where it is hashed.
fn row_tests(form: Form, keys: u64, calls: u64) -> u128
    ensures tests { result ≡ row_tests form keys calls }
    ensures few { result ≤ 2 ^ 66 }
{
    let keys = u128::from(keys);
    match form {
        Form::Sorted => keys + u128::from(calls),
        Form::Hashed => 2 * keys + u128::from(calls),
    }
}

/// Rows with so many tests each.
fn work(rows: u64, tests: u128) -> u128
    requires rows { rows ≤ MOST_ESTIMATE }
    requires tests { tests ≤ 2 ^ 66 }
    ensures value { result ≡ rows * tests }
    ensures fits { result ≤ 2 ^ 110 }
{
    u128::from(rows) * tests
}

/// What a plan costs that groups an input of this total, without the sort of the groups on top, cut to at most 10^18.
pub fn group_cost(form: Form, task: &GroupTask, input: u64) -> u64
    requires { IsTask task.now }
    ensures cost { result ≡ capped (group_cost form task.now input) }
    ensures most { result ≤ MOST_COST }
{
    let tests = row_tests(form, task.distinct.len() as u64, task.calls);
    let grouping = work(task.rows, tests) * u128::from(OPERATOR);
    let giving = u128::from(groups(task) * TUPLE);
    (u128::from(input) + grouping + giving).min(u128::from(MOST_COST)) as u64
}

/// What a plan costs in all that groups an input of this total, with the sort of the groups where it has one on top, cut to at
/// most 10^18.
pub fn group_total(form: Form, task: &GroupTask, input: u64) -> u64
    requires { IsTask task.now }
    ensures total { result ≡ capped (group_total form task.now input) }
    ensures most { result ≤ MOST_COST }
{
    let total = group_cost(form, task, input);
    if !sorts_after(form, task) {
        return total;
    }
    sort(Pair { startup: 0, total }, groups(task)).total
}
