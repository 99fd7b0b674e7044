//! Laws of written plans.

ghost use Rattle.std.specs.Prelude.{◌≡◌, ℕ, List, None, length};
ghost use Rattle.catalog.specs.Contents.{Contents, IsLawful};
ghost use Rattle.sql_query.specs.Queries.{Query};
ghost use Rattle.sql_query.specs.WellBound.{IsWellBound};
ghost use Rattle.plan_tree.specs.Plans.{Plan};
ghost use Rattle.plan_lines.specs.explain_Texts.{plan_text};
ghost use Rattle.plan_space.specs.Numbered.{CostAndRows, nodes, own_numbers};
ghost use Rattle.plan_reader.specs.Written.{IsWritten, written_text};

/// The text of a plan of a query without a window is the one that is written with the plan's own numbers, a pair for each node.
pub fn own_texts_are_written()
    ensures count { (c : Contents) (q : Query) (p : Plan) → length (own_numbers c q p) ≡ nodes p }
    ensures text { (c : Contents) (q : Query) (p : Plan) → q.window ≡ None →
        plan_text c q p ≡ written_text c q p (own_numbers c q p) }
{}

/// A block is the text of one plan tree of a query at most, and with one list of numbers at most.
pub fn a_text_has_one_plan()
    ensures { (c : Contents) (q : Query) (block : List ℕ) (p o : Plan) (ns ms : List CostAndRows) →
        IsLawful c → IsWellBound c q → IsWritten c q block p ns → IsWritten c q block o ms →
        (p ≡ o) × (ns ≡ ms) }
{}
