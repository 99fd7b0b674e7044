//! What the names among the words of a statement are.

ghost use Rattle.std.specs.Prelude.{ℕ, List, drop, Contains};
ghost use Rattle.sql_lex.specs.declared.tokens.Token.{Token};
ghost use Rattle.sql_lex.specs.Words.{AreWords};
ghost use Rattle.sql_grammar.specs.Terminals.{Ident, t_name};
ghost use Rattle.sql_grammar.specs.Faults.{bytes_of, terminals, AreWithinLimits};
ghost use Rattle.pg_base.specs.Names.{IsName};

/// A name among the words of a statement from token `first` on, which are within the limits, is a name of the catalogue.
pub fn names_among_words()
    ensures { (text : List ℕ) (from first : ℕ) (tokens : List Token) (name : Ident) →
        AreWords text from tokens → AreWithinLimits (terminals text (drop first tokens)) →
        Contains (terminals text (drop first tokens)) (t_name name) → IsName (bytes_of name) }
{}
