//! Laws of queries and plans; no code runs. What the clauses of classes and of well bound queries mean; that a plan gives the
//! tuples that its relations and clauses mean, in the order of its keys; that the joins of kept plans are enough; and what is
//! the same in two catalogues that differ in indexes alone.
#![tactic(auto)]

mod classes;
mod indexes;
mod joins;
mod orders;
mod plans;
mod queries;

pub use classes::{
    base_is_all, classes_are_apart, classes_compare_alike, clauses_are_over, clauses_mean_where,
    clauses_split, conjuncts_are_over, members_tie, params_split, parts_are_local, tables_are_one,
};
pub use indexes::{
    a_query_has_one_least_price, estimates_read_no_index, finished_plans_move,
    least_prices_read_the_indexes_of_a_plan, prices_read_the_tables_of_the_query,
    scans_read_definitions, well_bound_queries_read_no_index,
};
pub use joins::{
    admissible_plans_are_dominated, kept_plans_suffice, least_kept_plan_is_least,
    sufficing_by_every_list_is_domination,
};
pub use orders::{finished_plans_are_ordered, plans_are_sorted};
pub use plans::{
    joins_leave_out_what_holds, plans_give_their_tuples, runs_read_their_parameterisation,
};
pub use queries::{
    base_clauses_mean_the_conditions, clauses_are_few, clauses_are_over_the_relations,
    clauses_mean_the_conditions, values_fit_their_types,
};
