//! Entries of certificates judged one by one, over those before them: what a node is, in numbers, and the reason for which an
//! entry is not right. Joins and sorts are computed from what their sides say of themselves, and nothing is trusted of what
//! stands in an entry. A cost unit is 1/400 of a sequential page.
#![tactic(auto)]

mod best;
mod entries;
mod joins;
mod judging;
mod merges;
mod nests;
mod numbers;
mod operators;
mod parts;
mod scans;
mod sets;
mod work;
mod work_parts;

pub use best::{finished_side, judge_table};
pub use judging::{judge_entries, judge_entry};
pub use merges::{MergeWork, has_list, merge_of, merge_with, merge_work};
pub use nests::{NestWork, nest_of, nest_with, nest_work, nest_work_given};
pub use numbers::{Own, numbers_of};
pub use operators::{merge_operators, nest_operators};
pub use plan_check;
pub use scans::{ByIndex, is_built, key_at, rows_given};
pub use sets::all_relations;
pub use work::{merge_cost, nest_cost, sorted};
pub use work_parts::{Part, set_rows};
