//! The codes of faults and what their texts begin with.

ghost use Rattle.std.specs.Prelude.{◌≡◌};
ghost use Rattle.reply_text.specs.Lines.{code_text, limit_text, phrase};

use pg_base::{Code, Limit};

/// The SQLSTATE code of a fault.
pub(crate) fn code_word(code: Code) -> &'static [u8]
    ensures { result.now ≡ code_text code }
{
    match code {
        Code::S1 => b"42601",
        Code::S2 => b"42P01",
        Code::S3 => b"42703",
        Code::S4 => b"42702",
        Code::S5 => b"42P07",
        Code::S6 => b"42701",
        Code::S7 => b"42712",
        Code::S8 => b"42704",
        Code::S9 => b"42883",
        Code::S10 => b"42804",
        Code::S11 => b"22003",
        Code::S12 => b"22P02",
        Code::S13 => b"22P04",
        Code::S14 => b"23502",
        Code::S15(_) => b"54000",
        Code::S16 => b"54001",
        Code::S17 => b"22023",
        Code::S18 => b"42803",
    }
}

/// The text of a limit.
pub(crate) fn limit_words(limit: Limit) -> &'static [u8]
    ensures { result.now ≡ limit_text limit }
{
    match limit {
        Limit::Tables => b"limit tables",
        Limit::Columns => b"limit columns",
        Limit::Rows => b"limit rows",
        Limit::Text => b"limit text",
        Limit::Name => b"limit name",
        Limit::Indexes => b"limit indexes",
        Limit::Relations => b"limit relations",
        Limit::Conjuncts => b"limit conjuncts",
        Limit::Atoms => b"limit atoms",
        Limit::Depth => b"limit depth",
        Limit::Candidates => b"limit candidates",
        Limit::Queries => b"limit queries",
    }
}

/// What the text of a fault begins with: all of it up to what it names. `rec` is the number of the record in error.
pub(crate) fn first_words(code: Code, rec: u32) -> &'static [u8]
    ensures { result.now ≡ phrase code rec }
{
    match code {
        Code::S1 => b"syntax error",
        Code::S2 => b"no table ",
        Code::S3 => b"no column ",
        Code::S4 => b"ambiguous column ",
        Code::S5 => b"duplicate name ",
        Code::S6 => b"duplicate column ",
        Code::S7 => b"duplicate alias ",
        Code::S8 => b"unknown ",
        Code::S9 => b"no operator ",
        Code::S10 => b"wrong type",
        Code::S11 => b"out of range",
        Code::S12 => b"invalid input",
        Code::S13 => copy_words(rec),
        Code::S14 => b"null",
        Code::S15(limit) => limit_words(limit),
        Code::S16 => b"no admissible plan",
        Code::S17 => b"invalid parameter",
        Code::S18 => b"ungrouped column ",
    }
}

// The two faults of COPY data as a whole: no end, or a record of a wrong number of fields.
fn copy_words(rec: u32) -> &'static [u8]
    ensures { result.now ≡ phrase Code.S13 rec }
{
    if rec == 0 {
        b"no end of copy data"
    } else {
        b"field count"
    }
}
