//! The plan by which a grouped query is answered, the least of all that group its tuples, and its text (PostgreSQL,
//! src/backend/optimizer/plan/planner.c, create_ordinary_grouping_paths). A cost unit is 1/400 of a sequential page.
#![tactic(auto)]

mod choice;
mod chosen;
mod grouped_plan;
mod keys;
mod plan_task;
mod print;
mod task;
mod text;

pub use choice::choose_groups;
pub use chosen::Chosen;
pub use grouped_plan::choose_plan;
pub use plan_task::{Asked, group_task};
pub use print::explain_groups;
pub use reply;
pub use text::group_text;
