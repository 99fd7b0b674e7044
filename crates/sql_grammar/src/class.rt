//! What the grammar sees of a token.

/// A reserved word: it is never a name.
#[derive(Clone, Copy, Debug, PartialEq, Eq)]
pub enum Word {
    And,
    As,
    Asc,
    Create,
    Cross,
    Desc,
    False,
    From,
    Group,
    Inner,
    Is,
    Join,
    Limit,
    Not,
    Null,
    Offset,
    On,
    Or,
    Order,
    Select,
    Table,
    True,
    Using,
    Where,
    With,
}

/// A word that has a place in the grammar and may be a name elsewhere.
#[derive(Clone, Copy, Debug, PartialEq, Eq)]
pub enum Free {
    Advise,
    Analyze,
    Between,
    By,
    Character,
    Check,
    Common,
    Copy,
    Csv,
    Distinct,
    Explain,
    First,
    Format,
    Full,
    Histogram,
    In,
    Include,
    Index,
    Last,
    Left,
    Natural,
    Nulls,
    Outer,
    Pages,
    Plan,
    Right,
    Rows,
    Statistics,
    Stdin,
    Time,
    Timestamp,
    Use,
    Varying,
    Without,
    Zone,
}

/// A symbol of one byte that is no operator, but for the `;` that ends a statement.
#[derive(Clone, Copy, Debug, PartialEq, Eq)]
pub enum Symbol {
    Open,
    Close,
    Comma,
    Dot,
    Minus,
    Star,
}

/// The class of a token. Tokens of one class are alike to the grammar.
#[derive(Clone, Copy, Debug, PartialEq, Eq)]
pub enum Class {
    /// A reserved word.
    Key(Word),
    /// A symbol.
    Mark(Symbol),
    /// A word that may be a name, with its place in the grammar where it has one.
    Name(Option<Free>),
    /// A number.
    Number,
    /// A quoted text.
    Quoted,
    /// A comparison operator.
    Operator,
    /// The `;` that ends a statement.
    Semicolon,
    /// The text's end.
    End,
}
