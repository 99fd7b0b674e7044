//! What the first words of a statement tell, and where its SELECT stands.

ghost use Rattle.std.specs.Prelude.{◌≡◌, ◌⊎◌, ℕ, List, Some, true};
ghost use Rattle.sql_lex.specs.declared.tokens.Token.{Token};
ghost use Rattle.sql_grammar.specs.Faults.{terminals, AreWithinLimits};
ghost use Rattle.sql_grammar.specs.work.Faults.{EndsAt, IsWhole, IsWindowed};
ghost use Rattle.sql_grammar.specs.Spelled.{IsSpelled};
ghost use Rattle.sql_grammar.specs.Syntax.{Statement, WindowedSelect};
ghost use Rattle.query_reader.specs.work.Parts.{HavePart, IsSelectAt, select_of};
ghost use Rattle.query_reader.specs.Select.{words_before};
ghost use Rattle.query_reader.specs.work.Select.{AreGrouped, AreNoOther, AreSelect, begins_query};

/// A statement that begins with SELECT or EXPLAIN is of no other kind than a SELECT.
pub fn selects_are_no_other()
    ensures { (text : List ℕ) (tokens : List Token) →
        begins_query (terminals text tokens) ≡ true → AreNoOther text tokens }
{}

/// A statement that is a SELECT has one of two forms: it groups, by GROUP BY or a call in its list, or it does not.
pub fn a_whole_select_is_of_one_form()
    ensures { (text : List ℕ) (tokens : List Token) →
        IsWhole text tokens → AreNoOther text tokens →
        AreSelect text tokens ⊎ AreGrouped text tokens }
{}

/// No tokens are a SELECT of both forms.
pub fn forms_are_apart()
    ensures { (text : List ℕ) (tokens : List Token) →
        AreSelect text tokens → AreGrouped text tokens → ⊥ }
{}

/// The SELECT that a statement's end ends stands behind the words that tell the statement's kind.
pub fn a_statement_has_its_select()
    ensures { (s : Statement) (x : WindowedSelect) (text : List ℕ) (tokens : List Token) →
        select_of s ≡ Some x → IsSpelled s text tokens →
        IsSelectAt text tokens (words_before (terminals text tokens)) x }
{}

/// What [`windowed_select_end`](sql_grammar::windowed_select_end) finds is a part of a statement within the limits.
pub fn a_select_that_ends_is_a_part()
    ensures { (text : List ℕ) (tokens : List Token) (first end : ℕ) →
        AreWithinLimits (terminals text tokens) → EndsAt IsWindowed text tokens first end →
        HavePart text tokens first end }
{}
