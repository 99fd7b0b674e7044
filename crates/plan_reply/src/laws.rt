//! Laws of what USE PLAN prints. Own.

ghost use Rattle.std.specs.Prelude.{◌≡◌, ℕ, List, None};
ghost use Rattle.catalog.specs.Contents.{Contents, IsLawful};
ghost use Rattle.plan_reply.specs.Told.{IsPlanReplyTo};
ghost use Rattle.plan_reply.specs.work.Told.{IsSameTold, IsTold};
ghost use Rattle.plan_reply.specs.declared.told.Told.{Told};
ghost use Rattle.reply.specs.Replies.{Reply};
ghost use Rattle.sql_query.specs.Queries.{Query};
ghost use Rattle.sql_query.specs.WellBound.{IsWellBound};
ghost use Rattle.sql_query.specs.Worlds.{World, IsWorld};

/// There is a reply to a block that is judged, for a query without a window: the answer by its plan, or the line that says why
/// it is not run.
pub fn told_blocks_have_replies()
    ensures { (w : World) (q : Query) (block : List ℕ) (t : Told) →
        IsWorld w → IsWellBound w.contents q → q.window ≡ None → IsTold w.contents q block t →
        (r : Reply) × IsPlanReplyTo w q block r }
{}

/// A block that is given for a plan of a query has one judgement alone: one line, or one plan.
pub fn a_block_tells_one_thing()
    ensures { (c : Contents) (q : Query) (block : List ℕ) (t u : Told) →
        IsLawful c → IsWellBound c q → IsTold c q block t → IsTold c q block u → IsSameTold t u }
{}
