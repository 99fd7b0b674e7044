//! A law of what is determined of a reply.

ghost use Rattle.std.specs.Prelude.{◌++◌, ◌∷◌, ℕ, List};
ghost use Rattle.statements.specs.Replies.{IsReply};
ghost use Rattle.statements.specs.Scripts.{AreFirst, Worked};
ghost use Rattle.statements.specs.reply_Replies.{Reply};
ghost use Rattle.script_laws.specs.OneReply.{AreAlike};
ghost use Rattle.script_laws.specs.Reached.{reached};

/// ADVISE, USE PLAN and all statements that print nothing have one reply in the world of those before them, and so has CHECK, unless
/// each of two names a plan that no entry dominates. Of SELECT and its EXPLAINs, which may show different best plans, nothing is said.
pub fn a_statement_has_one_reply()
    ensures { (text : List ℕ) (before behind : List Worked) (s : Worked) (other : Reply) →
        AreFirst text (before ++ s ∷ behind) → IsReply (reached before) s.action other →
        AreAlike (reached before) s.action s.reply other }
{}
