//! Why a statement is refused. The codes in brackets are SQLSTATE codes (PostgreSQL manual, appendix Error Codes).

ghost use Rattle.std.specs.Prelude.{◌≡◌};
ghost use Rattle.pg_base.specs.Faults.{data_fault, syntax_fault, words_fault};

use crate::numbers::TableNo;
use std::alloc::{AllocError, AllocFailed};

/// Out of memory: the one answer that any call which allocates may give.
pub type Memory = AllocError;

/// A limit of the program that a statement goes past (54000).
#[derive(Clone, Copy, Debug, PartialEq, Eq)]
pub enum Limit {
    /// More than `MOST_TABLES` tables.
    Tables,
    /// More than `MOST_COLUMNS` columns of a table, or key and INCLUDE columns of an index.
    Columns,
    /// More than `MOST_ROWS` rows of a table.
    Rows,
    /// A text of more than `MOST_TEXT_BYTES` bytes.
    Text,
    /// A name of more than `MOST_NAME_BYTES` bytes.
    Name,
    /// More than `MOST_INDEXES` indexes of a table.
    Indexes,
    /// More than `MOST_RELATIONS` relations of a query.
    Relations,
    /// More than `MOST_CONJUNCTS` conjuncts of a query.
    Conjuncts,
    /// More than `MOST_ATOMS` atoms of a statement.
    Atoms,
    /// An expression nested more than `MOST_LEVELS` levels deep.
    Depth,
    /// More than `MOST_CANDIDATES` candidate indexes of ADVISE.
    Candidates,
    /// More than `MOST_QUERIES` queries of ADVISE.
    Queries,
}

/// The kind of a fault.
#[derive(Clone, Copy, Debug, PartialEq, Eq)]
pub enum Code {
    /// Syntax error (42601).
    S1,
    /// No such table or alias (42P01).
    S2,
    /// No such column (42703).
    S3,
    /// A bare column name that two relations have (42702).
    S4,
    /// A name of a table or index that is taken (42P07).
    S5,
    /// A column named twice (42701).
    S6,
    /// An alias given twice (42712).
    S7,
    /// An unknown type, access method or operator class (42704).
    S8,
    /// No such operator for these types (42883).
    S9,
    /// A value or column of a wrong type (42804).
    S10,
    /// A number out of its type's range (22003).
    S11,
    /// A text that is no value of its type (22P02).
    S12,
    /// COPY data without an end, or a record with a wrong number of fields (22P04).
    S13,
    /// NULL in a NOT NULL column (23502).
    S14,
    /// A limit of the program (54000).
    S15(Limit),
    /// No plan costs below 10^18 (54001).
    S16,
    /// A parameter out of its range (22023).
    S17,
    /// A column outside of calls that is not among those of GROUP BY (42803).
    S18,
}

/// The first fault of a statement.
#[derive(Clone, Copy, Debug, PartialEq, Eq)]
pub struct Fault {
    /// The kind of the fault.
    pub code: Code,
    /// The place of the fault: a byte offset in the script.
    pub at: u32,
    /// Where the words in error begin in the script.
    pub from: u32,
    /// Where the words in error end: the offset past their last byte. For COPY data in error both offsets are `at`.
    pub to: u32,
    /// The number of the record in error in COPY data, from 1; 0 where no record is in error.
    pub rec: u32,
    /// The table whose COPY data are in error, else 0.
    pub table: TableNo,
    /// The column of the field in error in COPY data, else 0.
    pub col: u8,
}

impl Fault {
    /// The fault of this kind at words of the script, from one byte offset up to another.
    pub fn at_words(code: Code, from: u32, to: u32) -> Fault
        ensures { result ≡ words_fault code from to }
    {
        Fault {
            code,
            at: from,
            from,
            to,
            rec: 0,
            table: TableNo(0),
            col: 0,
        }
    }

    /// A syntax fault (42601) at a place; it names no words.
    pub fn syntax(place: u32) -> Fault
        ensures { result ≡ syntax_fault place }
    {
        Fault::at_words(Code::S1, place, place)
    }

    /// The fault of this kind of COPY data that begin at an offset, in a record, from 1, and a column of a table. A fault that
    /// names no record has 0 there, and one that names no column 0.
    pub fn in_data(code: Code, start: u32, rec: u32, table: TableNo, col: u8) -> Fault
        ensures { result ≡ data_fault code start rec table col }
    {
        Fault {
            code,
            at: start,
            from: start,
            to: start,
            rec,
            table,
            col,
        }
    }
}

/// Why a reading ends without a value.
#[derive(Clone, Copy, Debug, PartialEq, Eq)]
pub enum Refusal {
    /// The first fault of what was read.
    Fault(Fault),
    /// Memory ran out.
    Memory,
}

impl From<AllocError> for Refusal {
    ghost use Rattle.pg_base.specs.declared.faults.Refusal.TheVariants.{Memory};

    ghost from_gives = { λ _ refusal. refusal ≡ Memory };

    fn from(_: AllocError) -> Refusal {
        Refusal::Memory
    }
}

impl<T: Drop> From<AllocFailed<T>> for Refusal {
    ghost use Rattle.pg_base.specs.declared.faults.Refusal.TheVariants.{Memory};

    ghost from_gives = { λ _ refusal. refusal ≡ Memory };

    fn from(_: AllocFailed<T>) -> Refusal {
        Refusal::Memory
    }
}

impl From<Fault> for Refusal {
    ghost use Rattle.pg_base.specs.declared.faults.Refusal.TheVariants.{Fault};

    ghost from_gives = { λ fault refusal. refusal ≡ Fault fault };

    fn from(fault: Fault) -> Refusal {
        Refusal::Fault(fault)
    }
}
