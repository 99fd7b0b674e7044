//! What is to be printed of a block.

use plan_tree::Plan;

/// What USE PLAN is to print of a block that is given for a plan of a query (own).
#[derive(Drop)]
pub enum Told {
    /// A line with its LF, which says why the plan is not run.
    Line(Vec<u8>),
    /// The answer by this plan, whose printed text the block is.
    Plan(Plan),
}
