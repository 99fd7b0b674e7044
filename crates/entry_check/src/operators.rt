//! The clauses that joins of two sets test, and their operators.

ghost use Rattle.std.specs.Prelude.{◌≡◌};
ghost use Rattle.path_cost.specs.Costs.{operators};
ghost use Rattle.entry_check.specs.work.Working.{AreClausesTested, AreNestOperators, merge_tests};

use eq_classes::{ClassNo, Classes, ClauseSet};
use path_cost::{key_pairs, operators_of};
use pg_base::RelSet;
use plan_tree::classes_of;
use sql_query::Prepared;

/// The clauses that a join of the relations of `a` tests with a plan of those of `b` that is given the rows of `p`.
fn clauses_tested(classes: &Classes, a: RelSet, b: RelSet, p: RelSet) -> ClauseSet
    ensures { AreClausesTested classes.now a b p result }
{
    if p.0 == 0 {
        return classes.join_clauses(a, b);
    }
    match b.first() {
        Some(r) => classes.join_param_clauses(a, r, p),
        None => ClauseSet::empty(),
    }
}

/// The operators of the clauses that a nested loop tests whose outer side reads `a`, and whose inner side reads `b` and is
/// given the rows of `p`. A number past 2^64 - 1 is answered as 2^64 - 1.
pub fn nest_operators(q: &Prepared, a: RelSet, b: RelSet, p: RelSet) -> u64
    ensures operators { AreNestOperators q.now a.0 b.0 p.0 result }
{
    let classes = classes_of(q);
    let none = ClauseSet::empty();
    let tested = clauses_tested(classes, a, b, p);
    operators_of(classes, &tested, &none, &none)
}

/// The operators of the clauses that a merge of two sets by some classes tests beside the equality of these. A number past
/// 2^64 - 1 is answered as 2^64 - 1.
pub fn merge_operators(q: &Prepared, keys: &[ClassNo], a: RelSet, b: RelSet) -> u64
    ensures operators { result ≡ merge_tests q.now keys.now a b }
{
    let classes = classes_of(q);
    let none = ClauseSet::empty();
    let equal = key_pairs(classes, a, b, keys);
    let tested = classes.join_clauses(a, b);
    operators_of(classes, &tested, &none, &equal)
}
