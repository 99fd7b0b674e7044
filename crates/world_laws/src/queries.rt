//! Laws of what a SELECT means.

ghost use Rattle.std.specs.Prelude.{◌≡◌, ◌++◌, List, Ok};
ghost use Rattle.catalog.specs.Contents.{Contents, IsLawful};
ghost use Rattle.eq_classes.specs.Clauses.{ClassTable};
ghost use Rattle.eq_classes.specs.Holding.{IsClassTable};
ghost use Rattle.sql_lex.specs.declared.tokens.Token.{Token};
ghost use Rattle.sql_grammar.specs.Syntax.{WindowedSelect};
ghost use Rattle.sql_grammar.specs.Terminals.{Terminal};
ghost use Rattle.sql_grammar.specs.Words.{words_of_windowed};
ghost use Rattle.expr_reader.proofs.Named.{AreNamed};
ghost use Rattle.sql_query.specs.WellBound.{given_of};
ghost use Rattle.query_reader.specs.Binding.{Bound, bound_part, query_with};
ghost use Rattle.query_reader.specs.work.Select.{IsBoundByItself};

/// What a SELECT means over a lawful catalogue is a well bound query with its own classes, where its words that are names keep the
/// limit of a name.
pub fn meant_queries_are_well_bound()
    ensures { (c : Contents) (start : Token) (x : WindowedSelect) (rest : List Terminal) (b : Bound)
        (classes : ClassTable) → IsLawful c → AreNamed (words_of_windowed x ++ rest) →
        bound_part c start x ≡ Ok b → IsClassTable (given_of c (query_with classes b)) classes →
        IsBoundByItself c (query_with classes b) }
{}
