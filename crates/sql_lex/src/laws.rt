//! What the definitions of words and of their first fault imply.

ghost use Rattle.std.specs.Prelude.{◌≡◌, ◌↔◌, ℕ, List, ◌∷◌};
ghost use Rattle.sql_lex.specs.declared.tokens.Token.{Token};
ghost use Rattle.sql_lex.specs.Blanks.{HasNoBlank};
ghost use Rattle.sql_lex.specs.work.Cuts.{IsNotClosed};
ghost use Rattle.sql_lex.specs.Forms.{HasNoToken};
ghost use Rattle.sql_lex.specs.work.Stops.{IsNoTokenHere};
ghost use Rattle.sql_lex.specs.Words.{AreWords, IsWordFault};

/// A text has one reading from each place on: one list of words or one first fault, and not both.
/// Hence `lex_statement` gives the words wherever there are words, and refuses wherever there is a
/// fault, unless memory runs out.
pub fn one_reading()
    ensures words { (text : List ℕ) (from : ℕ) (ts us : List Token) →
        AreWords text from ts → AreWords text from us → ts ≡ us }
    ensures fault { (text : List ℕ) (from a b : ℕ) → IsWordFault text from a → IsWordFault text from b → a ≡ b }
    ensures apart { (text : List ℕ) (from : ℕ) (ts : List Token) (at : ℕ) →
        AreWords text from ts → IsWordFault text from at → ⊥ }
{}

/// No token stands at a place for one of three causes: its byte begins none, a quote is not closed,
/// or a letter or `_` follows a number at once. White space and comments end before a `/*` (47 and
/// 42) exactly where no `*/` of its own follows it.
pub fn causes()
    ensures token { (text : List ℕ) → HasNoToken text ↔ IsNoTokenHere text }
    ensures comment { (rest : List ℕ) → HasNoBlank (47 ∷ 42 ∷ rest) ↔ IsNotClosed rest }
{}
