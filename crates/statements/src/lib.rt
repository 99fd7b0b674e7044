//! The statements of a script: which one begins at a place, what it does, its first fault, and its reply.
#![tactic(auto)]

mod advising;
mod carry;
mod checking;
mod claims;
mod define;
mod end;
mod faults;
mod index;
mod laws;
mod query;
mod replying;
mod using;

pub use carry::carry_out;
pub use end::End;
pub use group_reply::reply;
pub use laws::{analysis_is_never_refused, one_reading, statements_go_on};
pub use replying::{Tallied, reply_to, tally_reply};
