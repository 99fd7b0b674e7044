//! Plans run: their tuples are drawn one by one, or all at once (PostgreSQL, src/backend/executor/README).
#![tactic(auto)]

mod estate;
mod laws;
mod node;
mod opening;
mod pairs;
mod probe;
mod rows;
mod running;
mod scanning;
mod sorting;
mod source;
mod tuple;

pub use laws::tuples_have_rows;
pub use plan_laws;
pub use rows::Rows;
pub use running::execute;
pub use scan_exec::store;
pub use tuple::Tuple;
