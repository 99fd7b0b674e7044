//! Why COPY data are refused (PostgreSQL manual, COPY).

ghost use Rattle.std.specs.Prelude.{◌≡◌};

use pg_base::ColNo;
use std::alloc::{AllocError, AllocFailed};
use thiserror::Error;

/// Why a block of COPY data is not loaded. Records count from 1 in the block; columns are those of the table.
#[derive(Clone, Copy, Debug, PartialEq, Eq, Error)]
pub enum CopyFault {
    /// A record has another number of fields than the table has columns.
    #[error("field count, record {rec}")]
    Arity {
        /// The record in error.
        rec: u32,
    },
    /// A field is a whole number that its column's type does not have.
    #[error("out of range, record {rec}")]
    Range {
        /// The record in error.
        rec: u32,
        /// The column in error.
        col: ColNo,
    },
    /// A field spells no value of its column's type.
    #[error("invalid input, record {rec}")]
    Invalid {
        /// The record in error.
        rec: u32,
        /// The column in error.
        col: ColNo,
    },
    /// A field is NULL and its column takes none.
    #[error("null, record {rec}")]
    IsNull {
        /// The record in error.
        rec: u32,
        /// The column in error.
        col: ColNo,
    },
    /// A text has more than [`MOST_TEXT_BYTES`](pg_base::MOST_TEXT_BYTES) bytes.
    #[error("text too long, record {rec}")]
    TooLong {
        /// The record in error.
        rec: u32,
        /// The column in error.
        col: ColNo,
    },
    /// The record would be a row past the first [`MOST_ROWS`](pg_base::MOST_ROWS) of the table.
    #[error("too many rows, record {rec}")]
    TooMany {
        /// The record in error.
        rec: u32,
    },
    /// Out of memory.
    #[error("out of memory")]
    Memory,
}

impl From<AllocError> for CopyFault {
    ghost use Rattle.heap.specs.declared.fault.CopyFault.TheVariants.{Memory};

    ghost from_gives = { λ _ fault. fault ≡ Memory };

    fn from(_: AllocError) -> CopyFault {
        CopyFault::Memory
    }
}

impl<T: Drop> From<AllocFailed<T>> for CopyFault {
    ghost use Rattle.heap.specs.declared.fault.CopyFault.TheVariants.{Memory};

    ghost from_gives = { λ _ fault. fault ≡ Memory };

    fn from(_: AllocFailed<T>) -> CopyFault {
        CopyFault::Memory
    }
}
