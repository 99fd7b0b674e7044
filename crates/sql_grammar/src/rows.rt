//! The rows of the table: for each item the tokens that are awaited, and the items that then stand in its place.
//!
//! Nowhere else are a production's rows said: the definitions of specs/ read the constants of this file.

use crate::class::Class::{End, Key, Mark, Name, Number, Operator, Quoted, Semicolon};
use crate::class::{Class, Free, Symbol, Word};
use crate::offered::{
    READS_ADVISE, READS_ANALYZE, READS_CHECK, READS_DISTINCT, READS_GROUPS, READS_LISTS,
    READS_PLAN, READS_TABLE, READS_WINDOW,
};
use crate::table::Item::{
    self, AdvisedSelect, AfterColumn, AfterCreate, AfterDistinct, AfterExplain, AfterGroupedName,
    AfterIs, AfterLiteral, AfterName, AfterNot, AfterPlain, AfterQualifier, AfterResult, AfterSide,
    AfterTruth, Argument, Candidate, Closes, ColumnType, Digits, Ends, Figures, FirstItem,
    FirstOrLast, FreeWord, GroupedItem, Keyword, Label, Literal, MaybeAlias, MaybeClass,
    MaybeCommon, MaybeDirection, MaybeGroup, MaybeHistogram, MaybeInclude, MaybeLimit,
    MaybeModifiers, MaybeNulls, MaybeOffset, MaybeOrder, MaybeUsing, MaybeVarying, MaybeWhere,
    MaybeZone, MoreAdvised, MoreAnds, MoreBounds, MoreCands, MoreColumns, MoreGroupColumns,
    MoreGroupedItems, MoreGroups, MoreJoins, MoreKeys, MoreModifiers, MoreNames, MoreOrderings,
    MoreOrs, MoreResults, MoreShares, Negation, NotEnds, Nullness, PlainItem, PlainNext, PlainTail,
    Query, QuotedText, Result, Side, Sign, StarOrLabel, Stop,
};

/// A row: the token that it takes, whether it is in the grammar, and the items in the item's place after it. The first row of
/// a token is its only one; where that is not in the grammar, the token is not awaited.
pub type Row = (Class, bool, &'static [Item]);

/// What is said of an item: whether no token need come for it, and its rows.
pub type ItemRows = (bool, &'static [Row]);

/// A token has to come.
pub const NEEDED: bool = false;

/// None need come.
const OPTIONAL: bool = true;

/// A row that none has: its token is left out of a later row.
const NEVER: bool = false;

/// In a row any name, also one with a place of its own.
const ANY_NAME: Class = Name(None);

/// The rows of an item: `token => [items];`, with `if CONSTANT` behind it where the row is in the grammar by a constant.
macro_rules! rows {
    (@offered) => { true };
    (@offered $offered:ident) => { $offered };
    ($empty:ident; $($lead:expr => [$($item:expr),*] $(if $offered:ident)?;)*) => {
        ($empty, &[$(($lead, rows!(@offered $($offered)?), &[$($item),*])),*])
    };
}

/// A name.
pub const LABEL: ItemRows = rows! { NEEDED;
    ANY_NAME => [];
};

/// A number.
pub const DIGITS: ItemRows = rows! { NEEDED;
    Number => [];
};

/// A quoted text.
pub const QUOTED_TEXT: ItemRows = rows! { NEEDED;
    Quoted => [];
};

/// A statement and its end.
pub const WHOLE: ItemRows = rows! { NEEDED;
    Key(Word::Create) => [AfterCreate];
    Key(Word::Select) => [FirstItem];
    Name(Some(Free::Explain)) => [AfterExplain];
    Name(Some(Free::Copy)) => [
        Label, Keyword(Word::From), FreeWord(Free::Stdin), Keyword(Word::With), Sign(Symbol::Open),
        FreeWord(Free::Format), FreeWord(Free::Csv), Sign(Symbol::Comma), Keyword(Word::Null),
        QuotedText, Sign(Symbol::Close), Stop
    ];
    Name(Some(Free::Statistics)) => [Label, Figures, Ends];
    Name(Some(Free::Advise)) => [
        Digits, Sign(Symbol::Open), Candidate, MoreCands, AdvisedSelect, MoreAdvised, Ends
    ] if READS_ADVISE;
    Name(Some(Free::Analyze)) => [Label, Ends] if READS_ANALYZE;
    Name(Some(Free::Check)) => [Query, MaybeOrder, MaybeLimit, MaybeOffset, Stop] if READS_CHECK;
    Name(Some(Free::Use)) => [FreeWord(Free::Plan), Query, MaybeOrder, Stop] if READS_PLAN;
    Semicolon => [];
    End => [];
};

/// A statement's end: `;` or the text's end.
pub const ENDS: ItemRows = rows! { NEEDED;
    Semicolon => [];
    End => [];
};

/// The `;` that a statement with data needs.
pub const STOP: ItemRows = rows! { NEEDED;
    Semicolon => [];
};

/// A SELECT.
pub const QUERY: ItemRows = rows! { NEEDED;
    Key(Word::Select) => [
        Result, MoreResults, Keyword(Word::From), Label, MaybeAlias, MoreJoins, MoreGroups,
        MaybeWhere
    ];
};

/// A type: a name, CHARACTER VARYING or TIMESTAMP with a zone, and modifiers behind the words that say which type it is.
pub const COLUMN_TYPE: ItemRows = rows! { NEEDED;
    Name(Some(Free::Character)) => [MaybeVarying, MaybeModifiers];
    Name(Some(Free::Timestamp)) => [MaybeModifiers, MaybeZone];
    ANY_NAME => [MaybeModifiers];
};

/// VARYING or nothing.
pub const MAYBE_VARYING: ItemRows = rows! { OPTIONAL;
    Name(Some(Free::Varying)) => [];
};

/// The modifiers of a type, or nothing.
pub const MAYBE_MODIFIERS: ItemRows = rows! { OPTIONAL;
    Mark(Symbol::Open) => [Digits, MoreModifiers];
};

/// Further modifiers, and the closing parenthesis.
pub const MORE_MODIFIERS: ItemRows = rows! { NEEDED;
    Mark(Symbol::Comma) => [Digits, MoreModifiers];
    Mark(Symbol::Close) => [];
};

/// WITH TIME ZONE, WITHOUT TIME ZONE or nothing.
pub const MAYBE_ZONE: ItemRows = rows! { OPTIONAL;
    Key(Word::With) => [FreeWord(Free::Time), FreeWord(Free::Zone)];
    Name(Some(Free::Without)) => [FreeWord(Free::Time), FreeWord(Free::Zone)];
};

/// NULL, NOT NULL or nothing.
pub const NULLNESS: ItemRows = rows! { OPTIONAL;
    Key(Word::Not) => [Keyword(Word::Null)];
    Key(Word::Null) => [];
};

/// Further columns of a table, and the closing parenthesis.
pub const MORE_COLUMNS: ItemRows = rows! { NEEDED;
    Mark(Symbol::Comma) => [Label, ColumnType, Nullness, MoreColumns];
    Mark(Symbol::Close) => [];
};

/// What SELECT asks for.
pub const RESULT: ItemRows = rows! { NEEDED;
    Mark(Symbol::Star) => [];
    ANY_NAME => [AfterResult];
};

/// Further ones.
pub const MORE_RESULTS: ItemRows = rows! { OPTIONAL;
    Mark(Symbol::Comma) => [Result, MoreResults];
};

/// What follows a name there.
pub const AFTER_RESULT: ItemRows = rows! { OPTIONAL;
    Mark(Symbol::Dot) => [StarOrLabel];
};

/// What follows a name and a dot there.
pub const STAR_OR_LABEL: ItemRows = rows! { NEEDED;
    Mark(Symbol::Star) => [];
    ANY_NAME => [];
};

/// An alias or nothing. The words of outer joins are none without AS, so such a join is a fault at its first word.
pub const MAYBE_ALIAS: ItemRows = rows! { OPTIONAL;
    Key(Word::As) => [Label];
    Name(Some(Free::Full)) => [] if NEVER;
    Name(Some(Free::Left)) => [] if NEVER;
    Name(Some(Free::Natural)) => [] if NEVER;
    Name(Some(Free::Outer)) => [] if NEVER;
    Name(Some(Free::Right)) => [] if NEVER;
    ANY_NAME => [];
};

/// Further joins of a group.
pub const MORE_JOINS: ItemRows = rows! { OPTIONAL;
    Key(Word::Join) => [
        Label, MaybeAlias, Keyword(Word::On), Negation, MoreAnds, MoreOrs, MoreJoins
    ];
    Key(Word::Inner) => [
        Keyword(Word::Join), Label, MaybeAlias, Keyword(Word::On), Negation, MoreAnds, MoreOrs,
        MoreJoins
    ];
    Key(Word::Cross) => [Keyword(Word::Join), Label, MaybeAlias, MoreJoins];
};

/// Further groups of a FROM list.
pub const MORE_GROUPS: ItemRows = rows! { OPTIONAL;
    Mark(Symbol::Comma) => [Label, MaybeAlias, MoreJoins, MoreGroups];
};

/// WHERE and a condition, or nothing.
pub const MAYBE_WHERE: ItemRows = rows! { OPTIONAL;
    Key(Word::Where) => [Negation, MoreAnds, MoreOrs];
};

/// What STATISTICS gives, after a table's name.
pub const FIGURES: ItemRows = rows! { NEEDED;
    Name(Some(Free::Rows)) => [Digits, FreeWord(Free::Pages), Digits];
    Mark(Symbol::Dot) => [
        Label, FreeWord(Free::Distinct), Digits, FreeWord(Free::Nulls), Digits, MaybeCommon,
        MaybeHistogram
    ];
};

/// Common values with their shares, or nothing.
pub const MAYBE_COMMON: ItemRows = rows! { OPTIONAL;
    Name(Some(Free::Common)) => [Sign(Symbol::Open), Literal, Digits, MoreShares];
};

/// Further common values, and the closing parenthesis.
pub const MORE_SHARES: ItemRows = rows! { NEEDED;
    Mark(Symbol::Comma) => [Literal, Digits, MoreShares];
    Mark(Symbol::Close) => [];
};

/// The bounds of a histogram, or nothing.
pub const MAYBE_HISTOGRAM: ItemRows = rows! { OPTIONAL;
    Name(Some(Free::Histogram)) => [Sign(Symbol::Open), Literal, MoreBounds];
};

/// Further literals of a list, as those of IN and the bounds of a histogram, and the closing parenthesis.
pub const MORE_BOUNDS: ItemRows = rows! { NEEDED;
    Mark(Symbol::Comma) => [Literal, MoreBounds];
    Mark(Symbol::Close) => [];
};

/// A literal.
pub const LITERAL: ItemRows = rows! { NEEDED;
    Mark(Symbol::Minus) => [Digits];
    Number => [];
    Quoted => [];
    Key(Word::True) => [];
    Key(Word::False) => [];
    Key(Word::Null) => [];
};

/// An expression without AND and OR on its outside.
pub const NEGATION: ItemRows = rows! { NEEDED;
    Key(Word::Not) => [Negation, NotEnds];
    Mark(Symbol::Open) => [Negation, MoreAnds, MoreOrs, Closes];
    ANY_NAME => [AfterName];
    Number => [AfterLiteral];
    Quoted => [AfterLiteral];
    Mark(Symbol::Minus) => [Digits, AfterLiteral];
    Key(Word::True) => [AfterTruth];
    Key(Word::False) => [AfterTruth];
    Key(Word::Null) => [AfterTruth];
};

/// Further parts of an AND.
pub const MORE_ANDS: ItemRows = rows! { OPTIONAL;
    Key(Word::And) => [Negation, MoreAnds];
};

/// Further parts of an OR.
pub const MORE_ORS: ItemRows = rows! { OPTIONAL;
    Key(Word::Or) => [Negation, MoreAnds, MoreOrs];
};

/// The parenthesis that closes a level.
pub const CLOSES: ItemRows = rows! { NEEDED;
    Mark(Symbol::Close) => [];
};

/// The end of what a NOT governs, which closes its level.
pub const NOT_ENDS: ItemRows = rows! { OPTIONAL;
};

/// What follows a name at an atom's start.
pub const AFTER_NAME: ItemRows = rows! { OPTIONAL;
    Mark(Symbol::Dot) => [Label, AfterColumn];
    Quoted => [AfterLiteral];
    Key(Word::Is) => [AfterIs];
    Operator => [Side];
    Key(Word::Not) => [AfterNot] if READS_LISTS;
    Name(Some(Free::In)) => [Sign(Symbol::Open), Literal, MoreBounds] if READS_LISTS;
    Name(Some(Free::Between)) => [Side, Keyword(Word::And), Side] if READS_LISTS;
};

/// What follows a column there.
pub const AFTER_COLUMN: ItemRows = rows! { OPTIONAL;
    Key(Word::Is) => [AfterIs];
    Operator => [Side];
    Key(Word::Not) => [AfterNot] if READS_LISTS;
    Name(Some(Free::In)) => [Sign(Symbol::Open), Literal, MoreBounds] if READS_LISTS;
    Name(Some(Free::Between)) => [Side, Keyword(Word::And), Side] if READS_LISTS;
};

/// What follows a column and NOT.
pub const AFTER_NOT: ItemRows = rows! { NEEDED;
    Name(Some(Free::In)) => [Sign(Symbol::Open), Literal, MoreBounds];
    Name(Some(Free::Between)) => [Side, Keyword(Word::And), Side];
};

/// What follows IS.
pub const AFTER_IS: ItemRows = rows! { NEEDED;
    Key(Word::Not) => [Keyword(Word::Null)];
    Key(Word::Null) => [];
};

/// What follows a number, a quoted text or a typed literal: it has to be compared.
pub const AFTER_LITERAL: ItemRows = rows! { NEEDED;
    Operator => [Side];
    Key(Word::Not) => [FreeWord(Free::Between), Side, Keyword(Word::And), Side] if READS_LISTS;
    Name(Some(Free::Between)) => [Side, Keyword(Word::And), Side] if READS_LISTS;
};

/// What follows TRUE, FALSE or NULL.
pub const AFTER_TRUTH: ItemRows = rows! { OPTIONAL;
    Operator => [Side];
    Key(Word::Not) => [FreeWord(Free::Between), Side, Keyword(Word::And), Side] if READS_LISTS;
    Name(Some(Free::Between)) => [Side, Keyword(Word::And), Side] if READS_LISTS;
};

/// An operand.
pub const SIDE: ItemRows = rows! { NEEDED;
    ANY_NAME => [AfterSide];
    Mark(Symbol::Minus) => [Digits];
    Number => [];
    Quoted => [];
    Key(Word::True) => [];
    Key(Word::False) => [];
    Key(Word::Null) => [];
};

/// What follows a name in an operand: a column's name behind a dot, or the quoted text of a typed literal.
pub const AFTER_SIDE: ItemRows = rows! { OPTIONAL;
    Mark(Symbol::Dot) => [Label];
    Quoted => [];
};

/// What follows a name where a column stands.
pub const AFTER_QUALIFIER: ItemRows = rows! { OPTIONAL;
    Mark(Symbol::Dot) => [Label];
};

/// ORDER BY and its columns, or nothing.
pub const MAYBE_ORDER: ItemRows = rows! { OPTIONAL;
    Key(Word::Order) => [
        FreeWord(Free::By), Label, AfterQualifier, MaybeDirection, MaybeNulls, MoreOrderings
    ];
};

/// Further columns of it.
pub const MORE_ORDERINGS: ItemRows = rows! { OPTIONAL;
    Mark(Symbol::Comma) => [Label, AfterQualifier, MaybeDirection, MaybeNulls, MoreOrderings];
};

/// LIMIT and a number, or nothing.
pub const MAYBE_LIMIT: ItemRows = rows! { OPTIONAL;
    Key(Word::Limit) => [Digits] if READS_WINDOW;
};

/// OFFSET and a number, or nothing.
pub const MAYBE_OFFSET: ItemRows = rows! { OPTIONAL;
    Key(Word::Offset) => [Digits] if READS_WINDOW;
};

/// ASC, DESC or nothing.
pub const MAYBE_DIRECTION: ItemRows = rows! { OPTIONAL;
    Key(Word::Asc) => [];
    Key(Word::Desc) => [];
};

/// NULLS FIRST, NULLS LAST or nothing.
pub const MAYBE_NULLS: ItemRows = rows! { OPTIONAL;
    Name(Some(Free::Nulls)) => [FirstOrLast];
};

/// FIRST or LAST.
pub const FIRST_OR_LAST: ItemRows = rows! { NEEDED;
    Name(Some(Free::First)) => [];
    Name(Some(Free::Last)) => [];
};

/// What follows CREATE, up to the statement's end.
pub const AFTER_CREATE: ItemRows = rows! { NEEDED;
    Key(Word::Table) => [Label, Sign(Symbol::Open), Label, ColumnType, Nullness, MoreColumns, Ends];
    Name(Some(Free::Index)) => [
        Label, Keyword(Word::On), Label, MaybeUsing, Sign(Symbol::Open), Label, MaybeClass,
        MaybeDirection, MaybeNulls, MoreKeys, MaybeInclude, MaybeWhere, Ends
    ];
};

/// USING and an access method, or nothing.
pub const MAYBE_USING: ItemRows = rows! { OPTIONAL;
    Key(Word::Using) => [Label];
};

/// An operator class, or nothing.
pub const MAYBE_CLASS: ItemRows = rows! { OPTIONAL;
    Name(Some(Free::Nulls)) => [] if NEVER;
    ANY_NAME => [];
};

/// Further keys, and the closing parenthesis.
pub const MORE_KEYS: ItemRows = rows! { NEEDED;
    Mark(Symbol::Comma) => [Label, MaybeClass, MaybeDirection, MaybeNulls, MoreKeys];
    Mark(Symbol::Close) => [];
};

/// INCLUDE and its columns, or nothing.
pub const MAYBE_INCLUDE: ItemRows = rows! { OPTIONAL;
    Name(Some(Free::Include)) => [Sign(Symbol::Open), Label, MoreNames];
};

/// Further columns of INCLUDE, and the closing parenthesis.
pub const MORE_NAMES: ItemRows = rows! { NEEDED;
    Mark(Symbol::Comma) => [Label, MoreNames];
    Mark(Symbol::Close) => [];
};

/// What follows EXPLAIN, up to the statement's end.
pub const AFTER_EXPLAIN: ItemRows = rows! { NEEDED;
    Key(Word::Select) => [FirstItem];
    Mark(Symbol::Open) => [
        Keyword(Word::Table), Sign(Symbol::Close), Query, MaybeOrder, MaybeLimit, MaybeOffset, Ends
    ] if READS_TABLE;
};

/// A candidate for an index.
pub const CANDIDATE: ItemRows = rows! { NEEDED;
    ANY_NAME => [
        Keyword(Word::On), Label, MaybeUsing, Sign(Symbol::Open), Label, MaybeClass, MaybeDirection,
        MaybeNulls, MoreKeys, MaybeInclude, MaybeWhere
    ];
};

/// Further candidates, and the closing parenthesis.
pub const MORE_CANDS: ItemRows = rows! { NEEDED;
    Mark(Symbol::Comma) => [Candidate, MoreCands];
    Mark(Symbol::Close) => [];
};

/// A SELECT with its order and its window in parentheses.
pub const ADVISED_SELECT: ItemRows = rows! { NEEDED;
    Mark(Symbol::Open) => [Query, MaybeOrder, MaybeLimit, MaybeOffset, Sign(Symbol::Close)];
};

/// Further ones.
pub const MORE_ADVISED: ItemRows = rows! { OPTIONAL;
    Mark(Symbol::Open) => [
        Query, MaybeOrder, MaybeLimit, MaybeOffset, Sign(Symbol::Close), MoreAdvised
    ];
};

/// The first item of a SELECT's list, or DISTINCT and the list, and what follows up to the statement's end.
pub const FIRST_ITEM: ItemRows = rows! { NEEDED;
    Mark(Symbol::Star) => [PlainNext];
    Name(Some(Free::Distinct)) => [AfterDistinct];
    ANY_NAME => [AfterPlain];
};

/// What follows the word DISTINCT behind SELECT: a list, where a `*` or a name is next; else the word is a column's name.
pub const AFTER_DISTINCT: ItemRows = rows! { NEEDED;
    Mark(Symbol::Star) => [
        MoreResults, Keyword(Word::From), Label, MaybeAlias, MoreJoins, MoreGroups, MaybeWhere,
        MaybeOrder, Ends
    ] if READS_DISTINCT;
    ANY_NAME => [
        AfterResult, MoreResults, Keyword(Word::From), Label, MaybeAlias, MoreJoins, MoreGroups,
        MaybeWhere, MaybeOrder, Ends
    ] if READS_DISTINCT;
    Mark(Symbol::Dot) => [StarOrLabel, PlainNext];
    Mark(Symbol::Open) => [
        Argument, Sign(Symbol::Close), MoreGroupedItems, Label, MaybeAlias, MoreJoins, MoreGroups,
        MaybeWhere, MaybeGroup, MaybeOrder, Ends
    ] if READS_GROUPS;
    Mark(Symbol::Comma) => [PlainItem];
    Key(Word::From) => [Label, MaybeAlias, MoreJoins, MoreGroups, MaybeWhere, PlainTail];
};

/// An item of a SELECT's list before which no call stands, and what follows it up to the statement's end.
pub const PLAIN_ITEM: ItemRows = rows! { NEEDED;
    Mark(Symbol::Star) => [PlainNext];
    ANY_NAME => [AfterPlain];
};

/// What follows a name there.
pub const AFTER_PLAIN: ItemRows = rows! { NEEDED;
    Mark(Symbol::Dot) => [StarOrLabel, PlainNext];
    Mark(Symbol::Open) => [
        Argument, Sign(Symbol::Close), MoreGroupedItems, Label, MaybeAlias, MoreJoins, MoreGroups,
        MaybeWhere, MaybeGroup, MaybeOrder, Ends
    ] if READS_GROUPS;
    Mark(Symbol::Comma) => [PlainItem];
    Key(Word::From) => [Label, MaybeAlias, MoreJoins, MoreGroups, MaybeWhere, PlainTail];
};

/// What follows such an item without a call.
pub const PLAIN_NEXT: ItemRows = rows! { NEEDED;
    Mark(Symbol::Comma) => [PlainItem];
    Key(Word::From) => [Label, MaybeAlias, MoreJoins, MoreGroups, MaybeWhere, PlainTail];
};

/// What follows FROM and WHERE of a SELECT without calls, up to the statement's end.
pub const PLAIN_TAIL: ItemRows = rows! { NEEDED;
    Key(Word::Group) => [
        FreeWord(Free::By), Label, AfterQualifier, MoreGroupColumns, MaybeOrder, Ends
    ] if READS_GROUPS;
    Key(Word::Order) => [
        FreeWord(Free::By), Label, AfterQualifier, MaybeDirection, MaybeNulls, MoreOrderings,
        MaybeLimit, MaybeOffset, Ends
    ];
    Key(Word::Limit) => [Digits, MaybeOffset, Ends] if READS_WINDOW;
    Key(Word::Offset) => [Digits, Ends] if READS_WINDOW;
    Semicolon => [];
    End => [];
};

/// An item of a SELECT's list behind a call.
pub const GROUPED_ITEM: ItemRows = rows! { NEEDED;
    Mark(Symbol::Star) => [];
    ANY_NAME => [AfterGroupedName];
};

/// What follows a name there.
pub const AFTER_GROUPED_NAME: ItemRows = rows! { OPTIONAL;
    Mark(Symbol::Dot) => [StarOrLabel];
    Mark(Symbol::Open) => [Argument, Sign(Symbol::Close)];
};

/// Further items of it, and FROM.
pub const MORE_GROUPED_ITEMS: ItemRows = rows! { NEEDED;
    Mark(Symbol::Comma) => [GroupedItem, MoreGroupedItems];
    Key(Word::From) => [];
};

/// What a call is of.
pub const ARGUMENT: ItemRows = rows! { NEEDED;
    Mark(Symbol::Star) => [];
    ANY_NAME => [AfterQualifier];
};

/// GROUP BY and its columns, or nothing.
pub const MAYBE_GROUP: ItemRows = rows! { OPTIONAL;
    Key(Word::Group) => [FreeWord(Free::By), Label, AfterQualifier, MoreGroupColumns];
};

/// Further columns of it.
pub const MORE_GROUP_COLUMNS: ItemRows = rows! { OPTIONAL;
    Mark(Symbol::Comma) => [Label, AfterQualifier, MoreGroupColumns];
};
