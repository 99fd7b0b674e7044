//! Laws of scripts: the worlds that they reach are lawful, what they ask is bound to these, and what their replies show.
#![tactic(auto)]

mod one;
mod reached;
mod right;
mod texts;

pub use one::a_statement_has_one_reply;
pub use reached::{
    asked_groups_are_well_grouped, asked_queries_are_well_bound, reached_worlds_are_lawful,
};
pub use right::{
    a_printed_advice_is_the_least, a_printed_plan_is_the_least, a_printed_table_is_right,
    a_used_plan_is_no_cheaper, a_valid_certificate_is_right,
};
pub use texts::{
    different_certificates_have_different_texts, different_tables_have_different_texts,
};
