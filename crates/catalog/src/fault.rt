//! Why a definition is refused (PostgreSQL manual, appendix Error Codes).

ghost use Rattle.std.specs.Prelude.{◌≡◌};

use std::alloc::{AllocError, AllocFailed};
use thiserror::Error;

/// Why the catalogue refuses a definition. It is then as before.
#[derive(Clone, Copy, Debug, PartialEq, Eq, Error)]
pub enum CatalogFault {
    /// The name is one of a table or an index already (42P07).
    #[error("duplicate name")]
    NameTaken,
    /// The column at this place, from 0, is an earlier one, or has its name (42701).
    #[error("duplicate column")]
    ColumnTwice(u8),
    /// The limit of tables, or of the table's indexes, is reached (54000).
    #[error("too many")]
    TooMany,
    /// The number, literal or form of index at this place, from 0, is not allowed (22023).
    #[error("invalid parameter")]
    BadNumber(u8),
    /// Out of memory (53200).
    #[error("out of memory")]
    Memory,
}

impl From<AllocError> for CatalogFault {
    ghost use Rattle.catalog.specs.declared.fault.CatalogFault.TheVariants.{Memory};

    ghost from_gives = { λ _ fault. fault ≡ Memory };

    fn from(_: AllocError) -> CatalogFault {
        CatalogFault::Memory
    }
}

impl<T: Drop> From<AllocFailed<T>> for CatalogFault {
    ghost use Rattle.catalog.specs.declared.fault.CatalogFault.TheVariants.{Memory};

    ghost from_gives = { λ _ fault. fault ≡ Memory };

    fn from(_: AllocFailed<T>) -> CatalogFault {
        CatalogFault::Memory
    }
}
