//! What follows from the definitions of statements.

ghost use Rattle.std.specs.Prelude.{◌≡◌, ◌<◌, ◌≤◌, ℕ, List, length};
ghost use Rattle.pg_base.specs.declared.faults.Code.TheVariants.{S2};
ghost use Rattle.pg_base.specs.declared.numbers.TableNo.{TableNo};
ghost use Rattle.sql_lex.specs.declared.tokens.Token.{Token};
ghost use Rattle.sql_grammar.specs.declared.offered.TheConstants.{READS_ANALYZE};
ghost use Rattle.sql_grammar.specs.Faults.{fault_at};
ghost use Rattle.sql_grammar.specs.Syntax.{Ending, IsOffered, analyze as analyze_tree};
ghost use Rattle.sql_grammar.specs.Terminals.{Ident, token_of};
ghost use Rattle.analyze.specs.Analysis.{table_statistics};
ghost use Rattle.catalog.specs.work.Analysed.{IsAllowedTable};
ghost use Rattle.catalog.specs.Contents.{Contents, IsTable};
ghost use Rattle.pg_base.specs.declared.faults.Fault.{Fault};
ghost use Rattle.sql_query.specs.Worlds.{World};
ghost use Rattle.store.specs.Actions.{Action};
ghost use Rattle.statements.specs.Accepted.{IsRead};
ghost use Rattle.statements.specs.Faults.{IsFault, IsMeaningFault};
ghost use Rattle.group_reply.specs.reply_Replies.{Reply};
ghost use Rattle.store.specs.work.Kept.{IsStoreOf, Kept, stored_of};
ghost use Rattle.statements.specs.Replies.{IsReply};

/// A statement ends behind the place at which it begins, and inside the text.
pub fn statements_go_on()
    ensures ahead { (w : World) (text : List ℕ) (from next : ℕ) (action : Action) →
        from < length text → IsRead w text from action next → from < next }
    ensures inside { (w : World) (text : List ℕ) (from next : ℕ) (action : Action) →
        from ≤ length text → IsRead w text from action next → next ≤ length text }
{}

/// A statement has one reading from each place on: one action and one end; one first fault, and none where it is read
/// and has a reply.
pub fn one_reading()
    ensures read { (w : World) (text : List ℕ) (from m n : ℕ) (a b : Action) →
        IsRead w text from a m → IsRead w text from b n → (a ≡ b) × (m ≡ n) }
    ensures fault { (w : World) (text : List ℕ) (from : ℕ) (f g : Fault) →
        IsFault w text from f → IsFault w text from g → f ≡ g }
    ensures apart { (w : World) (text : List ℕ) (from n : ℕ) (a : Action) (r : Reply) (f : Fault) →
        IsRead w text from a n → IsReply w a r → ¬ IsFault w text from f }
{}

/// After its syntax ANALYZE has one fault, that its table is unknown, at the name: so none of a number out of range (22023).
/// The catalogue would refuse nothing of what is found of a table's rows.
pub fn analysis_is_never_refused()
    ensures fault { (w : World) (text : List ℕ) (tokens : List Token)
        (p : IsOffered READS_ANALYZE) (k : Token) (n : Ident) (e : Ending) (f : Fault) →
        IsMeaningFault w text tokens (analyze_tree p k n e) f → f ≡ fault_at S2 (token_of n) }
    ensures allowed { (c : Contents) (k : Kept) (t : TableNo) →
        IsStoreOf c k → IsTable c t → IsAllowedTable (table_statistics (stored_of k t)) }
{}
