//! The reply to a query: planned, its plan's text printed, and its rows printed as they are drawn, or counted.
#![tactic(auto)]

mod best;
mod measuring;
mod pass;
mod pending;
mod price;
mod print;
mod rows;
mod setting;
mod shown;
mod stop;
mod types;

pub use explain;
pub use measuring::{Measured, measure};
pub use pending::{flush, put};
pub use planner;
pub use planner::join_search;
pub use print::{answer, explain_query, put_result};
pub use rows::rows_at;
pub use setting::Setting;
pub use shown::shown_text;
pub use stop::{Broken, Stop};
pub use types::type_of;
