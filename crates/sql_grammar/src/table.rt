//! What the grammar awaits, and what is awaited in its place after a token.
//!
//! Each entry takes a token: nothing is put in an item's place before one has come.

ghost use Rattle.std.specs.Prelude.{◌≡◌, ◌≤◌};
ghost use Rattle.sql_grammar.specs.work.Table.{IsExpansion, leads, lent_rows, row_for, lone_row, rows_of_item, takes_of, is_optional, level_of};

use crate::class::{Class, Free, Symbol, Word};
use crate::rows::{self, ItemRows, Row};

/// What is awaited.
#[derive(Clone, Copy)]
pub enum Item {
    /// This reserved word.
    Keyword(Word),
    /// This symbol.
    Sign(Symbol),
    /// This word, which is not reserved.
    FreeWord(Free),
    /// A name.
    Label,
    /// A number.
    Digits,
    /// A quoted text.
    QuotedText,
    /// A statement and its end.
    Whole,
    /// A statement's end: `;` or the text's end.
    Ends,
    /// The `;` that a statement with data needs.
    Stop,
    /// A SELECT.
    Query,
    /// A type.
    ColumnType,
    /// VARYING or nothing.
    MaybeVarying,
    /// The modifiers of a type, or nothing.
    MaybeModifiers,
    /// Further modifiers, and the closing parenthesis.
    MoreModifiers,
    /// WITH TIME ZONE, WITHOUT TIME ZONE or nothing.
    MaybeZone,
    /// NULL, NOT NULL or nothing.
    Nullness,
    /// Further columns of a table, and the closing parenthesis.
    MoreColumns,
    /// What SELECT asks for.
    Result,
    /// Further ones.
    MoreResults,
    /// What follows a name there.
    AfterResult,
    /// What follows a name and a dot there.
    StarOrLabel,
    /// An alias or nothing.
    MaybeAlias,
    /// Further joins of a group.
    MoreJoins,
    /// Further groups of a FROM list.
    MoreGroups,
    /// WHERE and a condition, or nothing.
    MaybeWhere,
    /// What STATISTICS gives, after a table's name.
    Figures,
    /// Common values with their shares, or nothing.
    MaybeCommon,
    /// Further common values, and the closing parenthesis.
    MoreShares,
    /// The bounds of a histogram, or nothing.
    MaybeHistogram,
    /// Further literals of a list, as those of IN and the bounds of a histogram, and the closing parenthesis.
    MoreBounds,
    /// A literal.
    Literal,
    /// An expression without AND and OR on its outside.
    Negation,
    /// Further parts of an AND.
    MoreAnds,
    /// Further parts of an OR.
    MoreOrs,
    /// The parenthesis that closes a level.
    Closes,
    /// The end of what a NOT governs, which closes its level.
    NotEnds,
    /// What follows a name at an atom's start.
    AfterName,
    /// What follows a column there.
    AfterColumn,
    /// What follows a column and NOT.
    AfterNot,
    /// What follows IS.
    AfterIs,
    /// What follows a number, a quoted text or a typed literal: it has to be compared.
    AfterLiteral,
    /// What follows TRUE, FALSE or NULL.
    AfterTruth,
    /// An operand.
    Side,
    /// What follows a name in an operand.
    AfterSide,
    /// What follows a name where a column stands.
    AfterQualifier,
    /// ORDER BY and its columns, or nothing.
    MaybeOrder,
    /// Further columns of it.
    MoreOrderings,
    /// LIMIT and a number, or nothing.
    MaybeLimit,
    /// OFFSET and a number, or nothing.
    MaybeOffset,
    /// ASC, DESC or nothing.
    MaybeDirection,
    /// NULLS FIRST, NULLS LAST or nothing.
    MaybeNulls,
    /// FIRST or LAST.
    FirstOrLast,
    /// What follows CREATE, up to the statement's end.
    AfterCreate,
    /// USING and an access method, or nothing.
    MaybeUsing,
    /// An operator class, or nothing.
    MaybeClass,
    /// Further keys, and the closing parenthesis.
    MoreKeys,
    /// INCLUDE and its columns, or nothing.
    MaybeInclude,
    /// Further columns of INCLUDE, and the closing parenthesis.
    MoreNames,
    /// What follows EXPLAIN, up to the statement's end.
    AfterExplain,
    /// A candidate for an index.
    Candidate,
    /// Further candidates, and the closing parenthesis.
    MoreCands,
    /// A SELECT with its order and its window in parentheses.
    AdvisedSelect,
    /// Further ones.
    MoreAdvised,
    /// The first item of a SELECT's list, or DISTINCT and the list, and what follows up to the statement's end.
    FirstItem,
    /// What follows the word DISTINCT behind SELECT.
    AfterDistinct,
    /// An item of a SELECT's list before which no call stands, and what follows it up to the statement's end.
    PlainItem,
    /// What follows a name there.
    AfterPlain,
    /// What follows such an item without a call.
    PlainNext,
    /// What follows FROM and WHERE of a SELECT without calls, up to the statement's end.
    PlainTail,
    /// An item of a SELECT's list behind a call.
    GroupedItem,
    /// What follows a name there.
    AfterGroupedName,
    /// Further items of it, and FROM.
    MoreGroupedItems,
    /// What a call is of.
    Argument,
    /// GROUP BY and its columns, or nothing.
    MaybeGroup,
    /// Further columns of it.
    MoreGroupColumns,
}

/// What is said of an item that is no word of its own.
fn item_rows(item: Item) -> ItemRows
    ensures empty { result.0 ≡ is_optional item }
    ensures rows { lent_rows result.1.now ≡ (rows_of_item item).1 }
{
    match item {
        Item::Keyword(_) | Item::Sign(_) | Item::FreeWord(_) => (rows::NEEDED, &[]),
        Item::Label => rows::LABEL,
        Item::Digits => rows::DIGITS,
        Item::QuotedText => rows::QUOTED_TEXT,
        Item::Whole => rows::WHOLE,
        Item::Ends => rows::ENDS,
        Item::Stop => rows::STOP,
        Item::Query => rows::QUERY,
        Item::ColumnType => rows::COLUMN_TYPE,
        Item::MaybeVarying => rows::MAYBE_VARYING,
        Item::MaybeModifiers => rows::MAYBE_MODIFIERS,
        Item::MoreModifiers => rows::MORE_MODIFIERS,
        Item::MaybeZone => rows::MAYBE_ZONE,
        Item::Nullness => rows::NULLNESS,
        Item::MoreColumns => rows::MORE_COLUMNS,
        Item::Result => rows::RESULT,
        Item::MoreResults => rows::MORE_RESULTS,
        Item::AfterResult => rows::AFTER_RESULT,
        Item::StarOrLabel => rows::STAR_OR_LABEL,
        Item::MaybeAlias => rows::MAYBE_ALIAS,
        Item::MoreJoins => rows::MORE_JOINS,
        Item::MoreGroups => rows::MORE_GROUPS,
        Item::MaybeWhere => rows::MAYBE_WHERE,
        Item::Figures => rows::FIGURES,
        Item::MaybeCommon => rows::MAYBE_COMMON,
        Item::MoreShares => rows::MORE_SHARES,
        Item::MaybeHistogram => rows::MAYBE_HISTOGRAM,
        Item::MoreBounds => rows::MORE_BOUNDS,
        Item::Literal => rows::LITERAL,
        Item::Negation => rows::NEGATION,
        Item::MoreAnds => rows::MORE_ANDS,
        Item::MoreOrs => rows::MORE_ORS,
        Item::Closes => rows::CLOSES,
        Item::NotEnds => rows::NOT_ENDS,
        Item::AfterName => rows::AFTER_NAME,
        Item::AfterColumn => rows::AFTER_COLUMN,
        Item::AfterNot => rows::AFTER_NOT,
        Item::AfterIs => rows::AFTER_IS,
        Item::AfterLiteral => rows::AFTER_LITERAL,
        Item::AfterTruth => rows::AFTER_TRUTH,
        Item::Side => rows::SIDE,
        Item::AfterSide => rows::AFTER_SIDE,
        Item::AfterQualifier => rows::AFTER_QUALIFIER,
        Item::MaybeOrder => rows::MAYBE_ORDER,
        Item::MoreOrderings => rows::MORE_ORDERINGS,
        Item::MaybeLimit => rows::MAYBE_LIMIT,
        Item::MaybeOffset => rows::MAYBE_OFFSET,
        Item::MaybeDirection => rows::MAYBE_DIRECTION,
        Item::MaybeNulls => rows::MAYBE_NULLS,
        Item::FirstOrLast => rows::FIRST_OR_LAST,
        Item::AfterCreate => rows::AFTER_CREATE,
        Item::MaybeUsing => rows::MAYBE_USING,
        Item::MaybeClass => rows::MAYBE_CLASS,
        Item::MoreKeys => rows::MORE_KEYS,
        Item::MaybeInclude => rows::MAYBE_INCLUDE,
        Item::MoreNames => rows::MORE_NAMES,
        Item::AfterExplain => rows::AFTER_EXPLAIN,
        Item::Candidate => rows::CANDIDATE,
        Item::MoreCands => rows::MORE_CANDS,
        Item::AdvisedSelect => rows::ADVISED_SELECT,
        Item::MoreAdvised => rows::MORE_ADVISED,
        Item::FirstItem => rows::FIRST_ITEM,
        Item::AfterDistinct => rows::AFTER_DISTINCT,
        Item::PlainItem => rows::PLAIN_ITEM,
        Item::AfterPlain => rows::AFTER_PLAIN,
        Item::PlainNext => rows::PLAIN_NEXT,
        Item::PlainTail => rows::PLAIN_TAIL,
        Item::GroupedItem => rows::GROUPED_ITEM,
        Item::AfterGroupedName => rows::AFTER_GROUPED_NAME,
        Item::MoreGroupedItems => rows::MORE_GROUPED_ITEMS,
        Item::Argument => rows::ARGUMENT,
        Item::MaybeGroup => rows::MAYBE_GROUP,
        Item::MoreGroupColumns => rows::MORE_GROUP_COLUMNS,
    }
}

/// Whether a row with the first token takes the second.
fn is_led(lead: Class, class: Class) -> bool
    ensures { result ≡ leads lead class }
{
    match (lead, class) {
        (Class::Key(word), Class::Key(other)) => other as u8 == word as u8,
        (Class::Mark(symbol), Class::Mark(other)) => other as u8 == symbol as u8,
        (Class::Name(Some(word)), Class::Name(Some(other))) => other as u8 == word as u8,
        (Class::Name(None), Class::Name(_))
        | (Class::Number, Class::Number)
        | (Class::Quoted, Class::Quoted)
        | (Class::Operator, Class::Operator)
        | (Class::Semicolon, Class::Semicolon)
        | (Class::End, Class::End) => true,
        _ => false,
    }
}

/// The items of the first row that takes the token.
fn found(rows: &[Row], class: Class) -> Option<&'static [Item]>
    ensures { IsExpansion result (row_for (lent_rows rows.now) class) }
{
    for n in 0..rows.len() {
        let (lead, offered, items) = rows[n];
        if is_led(lead, class) {
            return if offered { Some(items) } else { None };
        }
    }
    None
}

/// An item that is a word of its own: it takes this token, and nothing stands in its place.
fn alone(lead: Class, class: Class) -> Option<&'static [Item]>
    ensures { IsExpansion result (row_for (lone_row lead) class) }
{
    if is_led(lead, class) { Some(&[]) } else { None }
}

/// The items that are awaited in this one's place after the token; None where the token is not awaited.
pub fn takes(item: Item, class: Class) -> Option<&'static [Item]>
    ensures { IsExpansion result (takes_of item class) }
{
    match item {
        Item::Keyword(word) => alone(Class::Key(word), class),
        Item::Sign(symbol) => alone(Class::Mark(symbol), class),
        Item::FreeWord(word) => alone(Class::Name(Some(word)), class),
        _ => found(item_rows(item).1, class),
    }
}

/// Whether no token need come for the item.
pub fn may_be_empty(item: Item) -> bool
    ensures { result ≡ is_optional item }
{
    item_rows(item).0
}

/// The levels of an expression that end with the item: 1 or 0.
pub fn level(item: Item) -> usize
    ensures is { result ≡ level_of item }
    ensures one { result ≤ 1 }
{
    match item {
        Item::Closes | Item::NotEnds => 1,
        _ => 0,
    }
}
