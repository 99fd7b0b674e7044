//! Reading a SELECT: its names bound to the catalogue, or its first fault (PostgreSQL manual, chapter Queries).
#![tactic(auto)]

mod bind;
mod conditions;
mod laws;
mod named;
mod order;
mod read;
mod relations;
mod select;
mod sources;
mod wanted;
mod window;
mod written;

pub use bind::{add_item, add_items};
pub use conditions::{classes_within, written_conjuncts};
pub use laws::{
    a_select_that_ends_is_a_part, a_statement_has_its_select, a_whole_select_is_of_one_form,
    forms_are_apart, selects_are_no_other,
};
pub use named::columns_in_all;
pub use order::order_by;
pub use read::{after_name, list_item};
pub use relations::Relations;
pub use select::{explains, groups, read_part, read_select};
pub use sources::Sources;
pub use wanted::{Wanted, wants, words_by};
pub use written::Item;
