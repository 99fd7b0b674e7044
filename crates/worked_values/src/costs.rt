//! Costs of plans that group, computed by hand.

ghost use Rattle.std.specs.Prelude.{◌≤◌, All, IfOk};
ghost use Rattle.group_values.specs.work.GroupCosts.{IsTask};

use cost_rules::MOST_ESTIMATE;
use group_values::{Form, GroupPlan, GroupTask, choose};
use pg_base::Memory;
use std::alloc::Global;

/// A grouping of so many rows with so many calls, by one key with so many different values or by none; the totals of an input
/// in no order and in that of the key; and the form and the cost of the least plan.
#[derive(Clone, Copy)]
struct Case {
    rows: u64,
    distinct: Option<u64>,
    calls: u64,
    plain: u64,
    sorted: u64,
    form: Form,
    cost: u64,
}

const CASES: [Case; 3] = [
    Case {
        rows: 4,
        distinct: Some(4),
        calls: 3,
        plain: 416,
        sorted: 436,
        form: Form::Hashed,
        cost: 452,
    },
    Case {
        rows: 4,
        distinct: Some(4),
        calls: 3,
        plain: 416,
        sorted: 416,
        form: Form::Sorted,
        cost: 448,
    },
    Case {
        rows: 1,
        distinct: None,
        calls: 1,
        plain: 420,
        sorted: 420,
        form: Form::Sorted,
        cost: 425,
    },
];

fn distinct_of(alloc: Global, count: Option<u64>) -> Result<Vec<u64>, Memory>
    ensures { IfOk result (λ v. All (λ n. 1 ≤ n) v.items) }
{
    match count {
        Some(count) => Vec::from_slice(alloc, &[count.max(1)]),
        None => Ok(Vec::new(alloc)),
    }
}

fn task_of(alloc: Global, case: Case) -> Result<GroupTask, Memory>
    ensures { IfOk result IsTask }
{
    let distinct = distinct_of(alloc, case.distinct)?;
    Ok(GroupTask {
        rows: case.rows.clamp(1, MOST_ESTIMATE),
        distinct,
        calls: case.calls,
        sort_sorted: false,
        sort_hashed: false,
    })
}

fn is_chosen(plan: Option<GroupPlan>, case: Case) -> bool {
    match plan {
        Some(plan) => plan.form == case.form && plan.cost == case.cost && plan.rows == case.rows,
        None => false,
    }
}

fn is_right(alloc: Global, case: Case) -> Result<bool, Memory> {
    let task = task_of(alloc, case)?;
    let plan = choose(&task, Some(case.plain), Some(case.sorted));
    Ok(is_chosen(plan, case))
}

/// The number of the first case whose plan is not the one wanted.
fn first_wrong(alloc: Global, cases: &[Case]) -> Result<Option<usize>, Memory> {
    for i in 0..cases.len() {
        if !is_right(alloc, cases[i])? {
            return Ok(Some(i));
        }
    }
    Ok(None)
}

#[test]
fn costs_by_hand(rt: HostRuntime) {
    let wrong = first_wrong(rt.alloc(), &CASES).expect(&rt, "no memory");
    assert_eq!(rt; wrong, None);
}
