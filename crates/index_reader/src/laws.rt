//! Where a candidate for an index stands.

ghost use Rattle.std.specs.Prelude.{ℕ, List};
ghost use Rattle.sql_lex.specs.declared.tokens.Token.{Token};
ghost use Rattle.sql_grammar.specs.Faults.{terminals, AreWithinLimits};
ghost use Rattle.sql_grammar.specs.work.Faults.{EndsAt, IsCand};
ghost use Rattle.index_reader.specs.work.Candidates.{HaveCand};

/// What [`cand_end`](sql_grammar::cand_end) finds is a candidate of a statement within the limits.
pub fn a_candidate_that_ends_is_one()
    ensures { (text : List ℕ) (tokens : List Token) (first end : ℕ) →
        AreWithinLimits (terminals text tokens) → EndsAt IsCand text tokens first end →
        HaveCand text tokens first end }
{}
