//! What the words of a tree tell of it.

ghost use Rattle.std.specs.Prelude.{◌≡◌, ◌≤◌, ◌^◌, ℕ, List, length};
ghost use Rattle.sql_lex.specs.declared.tokens.Token.{Token};
ghost use Rattle.sql_lex.specs.Words.{AreWords};
ghost use Rattle.sql_grammar.specs.work.Faults.{IsCand, IsWindowed};
ghost use Rattle.sql_grammar.specs.work.Reading.{AreTokens};
ghost use Rattle.sql_grammar.specs.Syntax.{Expr, Statement};
ghost use Rattle.sql_grammar.specs.work.Unique.{ends_cand, ends_expr, ends_windowed, HasItsEnd, HaveTheirTokens, IsOneAhead};
ghost use Rattle.sql_grammar.specs.Words.{words_of, words_of_cand, words_of_expr, words_of_windowed, levels_of_cand, levels_of_windowed};

/// A list of terminals is the words of one statement at most. Where they are those of some tokens, the statement's tokens, in
/// the order of its words, are these. Hence tokens have one syntax tree at most.
pub fn one_statement()
    ensures one { (x y : Statement) → words_of x ≡ words_of y → x ≡ y }
    ensures tokens { (x : Statement) → HaveTheirTokens (words_of x) }
{}

/// A list of terminals is the words of one expression at most, and begins with one expression at most that no further
/// word goes on. Where they are those of some tokens, the expression's tokens, in the order of its words, are these.
pub fn one_expression()
    ensures one { (a b : Expr) → words_of_expr a ≡ words_of_expr b → a ≡ b }
    ensures ahead { IsOneAhead words_of_expr ends_expr }
    ensures tokens { (a : Expr) → HaveTheirTokens (words_of_expr a) }
{}

/// A list of terminals begins with one SELECT with its order and its window at most that no further word goes on. Where tokens
/// of a statement begin with the words of one, within the limits, and a word that goes on none follows, `windowed_select_end`
/// answers the number of that word.
pub fn one_windowed_select()
    ensures ahead { IsOneAhead words_of_windowed ends_windowed }
    ensures ends { HasItsEnd IsWindowed ends_windowed words_of_windowed levels_of_windowed }
{}

/// A list of terminals begins with one candidate for an index at most that no further word goes on. Where tokens of a
/// statement begin with the words of one, within the limits, and a word that goes on none follows, `cand_end` answers
/// the number of that word.
pub fn one_candidate()
    ensures ahead { IsOneAhead words_of_cand ends_cand }
    ensures ends { HasItsEnd IsCand ends_cand words_of_cand levels_of_cand }
{}

/// The words of a statement are tokens of its text of which the last alone is `;` or the text's end.
pub fn words_are_tokens()
    ensures { (text : List ℕ) (from : ℕ) (tokens : List Token) → AreWords text from tokens
        → length text ≤ 2 ^ 31 → AreTokens text tokens }
{}
