//! Laws of what replies show of all plans.

ghost use Rattle.std.specs.Prelude.{◌≡◌, ◌⊎◌, ◌++◌, ◌∷◌, ℕ, List};
ghost use Rattle.catalog.specs.Contents.{NamedIndex};
ghost use Rattle.statements.specs.check_reply_Checked.{valid_line};
ghost use Rattle.plan_check.specs.Certificates.{Certificate};
ghost use Rattle.statements.specs.plan_reply_Tabled.{IsTabled, tabled_text};
ghost use Rattle.statements.specs.plan_reply_Told.{IsRefusedPlan};
ghost use Rattle.plan_tree.specs.Plans.{Plan};
ghost use Rattle.sql_query.specs.Queries.{Query};
ghost use Rattle.store.specs.Actions.{advise, answer, certify, explain, follow, verify};
ghost use Rattle.statements.specs.Scripts.{AreFirst, Worked};
ghost use Rattle.script_laws.specs.Reached.{reached};
ghost use Rattle.script_laws.specs.Right.{IsLeastAdvice, IsRightAnswer, IsRightBlock, IsRightExplanation, IsRightPlan, IsUsedPlan};

/// Where SELECT is answered, the plan that is printed is finished and admissible, no admissible finished plan of the query costs less
/// in that world, and its rows, of which LIMIT and OFFSET let through the lines behind it, are those that the query means, in its
/// ORDER BY. Where EXPLAIN is answered, a plan with these properties is printed, and nothing behind it.
pub fn a_printed_plan_is_the_least()
    ensures answered { (text : List ℕ) (before behind : List Worked) (s : Worked) (q : Query) →
        AreFirst text (before ++ s ∷ behind) → s.action ≡ answer q →
        IsRightAnswer (reached before) q s.reply.bytes }
    ensures explained { (text : List ℕ) (before behind : List Worked) (s : Worked) (q : Query) →
        AreFirst text (before ++ s ∷ behind) → s.action ≡ explain q →
        IsRightExplanation (reached before) q s.reply.bytes }
{}

/// Where CHECK is answered `valid`, the block is the text of a certificate whose best plan no admissible finished plan of the query
/// undercuts in that world, and whose rows are those that the query means, in its ORDER BY.
pub fn a_valid_certificate_is_right()
    ensures { (text : List ℕ) (before behind : List Worked) (s : Worked) (q : Query)
        (block : List ℕ) → AreFirst text (before ++ s ∷ behind) → s.action ≡ verify q block →
        s.reply.bytes ≡ valid_line → IsRightBlock (reached before) q block }
{}

/// Where EXPLAIN (TABLE) is answered, no admissible finished plan of the query undercuts the plan that is printed, its rows are those
/// that the query means, in its ORDER BY, and the certificate behind it is a table of which it is the best plan.
pub fn a_printed_table_is_right()
    ensures { (text : List ℕ) (before behind : List Worked) (s : Worked) (q : Query) →
        AreFirst text (before ++ s ∷ behind) → s.action ≡ certify q →
        (p : Plan) × (t : Certificate) × IsTabled (reached before).contents q p t ×
        IsRightPlan (reached before) q p ×
        (s.reply.bytes ≡ tabled_text (reached before).contents q p t) }
{}

/// Where USE PLAN is answered, a line says why the plan of the block is not run, or it is a finished plan with its own numbers, than
/// which no best plan costs more, and its rows are printed, which are those that the query means, in its ORDER BY.
pub fn a_used_plan_is_no_cheaper()
    ensures { (text : List ℕ) (before behind : List Worked) (s : Worked) (q : Query)
        (block : List ℕ) → AreFirst text (before ++ s ∷ behind) → s.action ≡ follow q block →
        IsUsedPlan (reached before) q block s.reply.bytes ⊎
        IsRefusedPlan (reached before).contents q block s.reply.bytes }
{}

/// Where ADVISE is answered, no set of at most so many candidates has a lower sum than the one that is printed.
pub fn a_printed_advice_is_the_least()
    ensures { (text : List ℕ) (before behind : List Worked) (s : Worked) (most : ℕ)
        (candidates : List NamedIndex) (queries : List Query) →
        AreFirst text (before ++ s ∷ behind) → s.action ≡ advise most candidates queries →
        IsLeastAdvice (reached before).contents candidates queries most s.reply.bytes }
{}
