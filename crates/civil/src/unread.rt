//! Why a text is no value.

/// Why a text is no value of a type.
#[derive(Clone, Copy, Debug, PartialEq, Eq)]
pub enum Unread {
    /// The text does not have the form.
    Form,
    /// The text has the form, and a part of it or the whole is out of range.
    Range,
}
