//! A query whose names are bound to a catalogue.
#![tactic(auto)]

mod columns;
mod grouped;
mod laws;
mod order;
mod prepared;
mod window;

pub use catalog;
pub use catalog::{RangeTable, opfamily};
pub use columns::ColList;
pub use grouped::{Grouped, Item, ItemList};
pub use laws::{
    another_order_is_well_bound, no_order_is_well_bound, own_classes_have_their_directions,
    selected_columns,
};
pub use order::OrderList;
pub use prepared::Prepared;
pub use window::Window;
