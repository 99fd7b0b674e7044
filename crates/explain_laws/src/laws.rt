//! Laws of the texts of plans.

ghost use Rattle.std.specs.Prelude.{◌≡◌};
ghost use Rattle.catalog.specs.Contents.{Contents, IsLawful};
ghost use Rattle.sql_query.specs.Queries.{Query};
ghost use Rattle.sql_query.specs.WellBound.{IsWellBound};
ghost use Rattle.plan_tree.specs.Plans.{Plan};
ghost use Rattle.explain.specs.work.Lines.{IsShown};
ghost use Rattle.explain.specs.Texts.{explained_text, plan_text};

/// Two plans of one query, each of the plan space for its set and parameterisation or finished, are one plan where their
/// texts are the same, or where what is printed of them is, with the line of LIMIT and OFFSET where the query has a window.
pub fn different_plans_have_different_texts()
    ensures texts { (c : Contents) (q : Query) (a b : Plan) → IsLawful c → IsWellBound c q →
        IsShown c q a → IsShown c q b → plan_text c q a ≡ plan_text c q b → a ≡ b }
    ensures printed { (c : Contents) (q : Query) (a b : Plan) → IsLawful c → IsWellBound c q →
        IsShown c q a → IsShown c q b → explained_text c q a ≡ explained_text c q b → a ≡ b }
{}
