//! Operator families: which types their operators take, the strategies of the operators, and the operator classes
//! that an index names (PostgreSQL manual, chapter Indexes, Operator Classes and Operator Families; chapter Index
//! Access Methods, Method Strategies). One table of specs/ says it all, and each call is that table's answer.
#![tactic(auto)]

mod classes;
mod laws;
mod ordering;
mod strategies;

pub use classes::{
    IndexKey, Method, OpClass, accepts, class_named, default_class, default_family, family,
};
pub use laws::key_order_is_total;
pub use ordering::keys_order;
pub use pg_base;
pub use pg_value;
pub use strategies::{operator_exists, strategy};
