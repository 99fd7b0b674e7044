//! pgplan: reads a script, plans and runs its queries, and prints plans, rows and advice. The words of its command line,
//! and the sample script that is made from a number: tables, drawn rows, indexes and queries.
#![tactic(auto)]

mod command;
mod draws;
mod machine;
mod sample;
mod script;
mod status;
mod top;
mod totals;
mod work;

pub use command::{Command, read_command};
pub use machine::Machine;
pub use script::sample_script;
pub use statements::{End, analysis_is_never_refused, one_reading, statements_go_on};
pub use top::pgplan;
