//! Dates, times of day and numbers with digits behind a point, as whole numbers, and their texts (PostgreSQL manual,
//! Date/Time Types, Numeric Types and UUID Type).
#![tactic(auto)]

mod dates;
mod forms;
mod laws;
mod numerics;
mod offsets;
mod ranges;
mod shown;
mod times;
mod unread;
mod written;

pub use dates::read_date;
pub use forms::is_uuid;
pub use laws::{
    dates_are_read_back, ends_are_printed, numerics_are_read_back, texts_differ,
    timestamps_are_read_back, values_are_in_range,
};
pub use numerics::read_numeric;
pub use offsets::read_timestamptz;
pub use ranges::{is_date, is_instant, is_numeric, whole_numeric};
pub use shown::{date_text, numeric_text, timestamp_text, timestamptz_text};
pub use times::read_timestamp;
pub use unread::Unread;
pub use written::Written;
