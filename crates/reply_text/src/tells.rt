//! What a fault's text names beside its kind.

ghost use Rattle.std.specs.Prelude.{◌≡◌};
ghost use Rattle.reply_text.specs.Tells.{naming_of, data_place_of};

use pg_base::{Code, Limit};

/// How a text names the word in error.
#[derive(Clone, Copy, Debug, PartialEq, Eq)]
pub(crate) enum Naming {
    /// Not at all.
    Nothing,
    /// In small letters; an operator has none.
    Small,
}

/// What a text names of the COPY data in error.
#[derive(Clone, Copy, Debug, PartialEq, Eq)]
pub(crate) enum Place {
    /// Nothing.
    Nowhere,
    /// The record.
    Record,
    /// The record and the column.
    Field,
}

/// How the text of a fault names the word in error.
pub(crate) fn how_named(code: Code) -> Naming
    ensures { result ≡ naming_of code }
{
    match code {
        Code::S2 | Code::S3 | Code::S4 | Code::S5 | Code::S6 | Code::S7 => Naming::Small,
        Code::S8 | Code::S9 | Code::S18 => Naming::Small,
        _ => Naming::Nothing,
    }
}

/// What the text of a fault names of COPY data.
pub(crate) fn place_named(code: Code) -> Place
    ensures { result ≡ data_place_of code }
{
    match code {
        Code::S11 | Code::S12 | Code::S14 | Code::S15(Limit::Text) => Place::Field,
        Code::S13 | Code::S15(Limit::Rows) => Place::Record,
        _ => Place::Nowhere,
    }
}
