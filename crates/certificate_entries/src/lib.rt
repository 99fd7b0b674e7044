//! One line of a certificate's text: what it says of an entry, and its parts read from the left. The reader of a whole line
//! goes on from here.
#![tactic(auto)]

mod bits;
mod clauses;
mod elements;
mod ends;
mod figures;
mod indexes;
mod key_lists;
mod keys;
mod kinds;
mod leaves;
mod line;
mod line_keys;
mod nodes;
mod numbers;
mod sets;

pub use bits::read_bits;
pub use certificate_text;
pub use certificate_text::plan_check;
pub use clauses::find_clause;
pub use ends::{eat_number, is_best_line, read_best, read_sets};
pub use figures::read_figures;
pub use indexes::{read_leaf, read_scan};
pub use key_lists::read_keys;
pub use keys::read_key_list;
pub use leaves::read_leaves;
pub use line::{Line, LineFault, ReadLine};
pub use line_keys::read_key;
pub use nodes::read_node;
pub use numbers::{read_entry_number, read_side};
pub use sets::{read_param, read_set};
