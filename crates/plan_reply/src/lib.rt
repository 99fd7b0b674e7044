//! Replies that show or take a whole plan: to USE PLAN the plan that is written out, run, or the first reason for which it is
//! not; to EXPLAIN (TABLE) a plan's text, and the certificate that shows that no other plan undercuts it.
#![tactic(auto)]

mod answer;
mod judging;
mod laws;
mod lines;
mod print;
mod text;
mod told;

pub use answer::answer_told;
pub use judging::judge_text;
pub use laws::{a_block_tells_one_thing, told_blocks_have_replies};
pub use print::explain_table;
pub use text::table_text;
pub use told::Told;
