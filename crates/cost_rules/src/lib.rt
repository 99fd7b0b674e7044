//! The rules of costs as arithmetic on numbers: rows, pages, entries and operators go in, costs come out. Of the prices of
//! finished plans the better one is given: that of a plan below 10^18, and of others the lesser. A cost unit is 1/400 of a
//! sequential page.
#![tactic(auto)]

mod joins;
mod laws;
mod pair;
mod parameters;
mod powers;
mod prices;
mod scans;
mod sorts;

pub use joins::{merge, nest, price, sort};
pub use laws::{capped_children, least_powers, rising_costs};
pub use pair::Pair;
pub use parameters::{
    BITMAP_CHILD, ENTRIES_PER_PAGE, HASH_DESCENT, INDEX_TUPLE, LEVEL, MOST_COST, MOST_ESTIMATE,
    OPERATOR, RANDOM_PAGE, SEQUENTIAL_PAGE, TUPLE,
};
pub use powers::log_up;
pub use prices::{Price, better, is_no_worse};
pub use scans::{
    bitmap_scan, btree_descent, heap_pages, index_entries, index_pages, index_scan, seq_scan,
};
pub use sorts::sort_total;
