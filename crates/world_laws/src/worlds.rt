//! Laws of the worlds that statements make.

ghost use Rattle.std.specs.Prelude.{◌≡◌, ℕ, List, Ok};
ghost use Rattle.sql_lex.specs.Words.{AreWords};
ghost use Rattle.sql_lex.specs.declared.tokens.Token.{Token};
ghost use Rattle.sql_grammar.specs.Spelled.{IsSpelled};
ghost use Rattle.sql_grammar.specs.Syntax.{CreateIndex, Statement, create_index};
ghost use Rattle.catalog.specs.Contents.{IsLawful};
ghost use Rattle.catalog.specs.Tables.{IsAcceptableIndex};
ghost use Rattle.sql_query.specs.Worlds.{World};
ghost use Rattle.store.specs.Actions.{Action, after, build};
ghost use Rattle.ddl_reader.specs.Statements.{Means};
ghost use Rattle.ddl_reader.specs.Tables.{Reading};
ghost use Rattle.index_reader.specs.Meaning.{IndexMeant, meaning_of_index};
ghost use Rattle.world_laws.specs.work.Definitions.{Comes};
ghost use Rattle.world_laws.specs.LawfulWorlds.{IsLawfulWorld};
ghost use Rattle.world_laws.specs.work.LawfulWorlds.{MayBeDone};

/// A lawful world is left lawful by whatever may be done in it.
pub fn actions_keep_worlds_lawful()
    ensures { (w : World) (action : Action) → IsLawfulWorld w → MayBeDone w action →
        IsLawfulWorld (after w action) }
{}

/// What a definition that is read comes to may be done.
pub fn definitions_may_be_done()
    ensures { (w : World) (text : List ℕ) (from : ℕ) (tokens : List Token) (x : Statement)
        (r : Reading) (action : Action) → IsLawful w.contents → AreWords text from tokens →
        IsSpelled x text tokens → Means w.contents text x (Ok r) → Comes w r.definition action →
        MayBeDone w action }
{}

/// An index that CREATE INDEX means may be made where the catalogue accepts it.
pub fn indexes_may_be_made()
    ensures { (w : World) (text : List ℕ) (from : ℕ) (tokens : List Token) (y : CreateIndex)
        (r : IndexMeant) (action : Action) → IsLawful w.contents → AreWords text from tokens →
        IsSpelled (create_index y) text tokens → meaning_of_index w.contents y ≡ Ok r →
        IsAcceptableIndex w.contents r.name r.index → action ≡ build r.name r.index →
        MayBeDone w action }
{}
