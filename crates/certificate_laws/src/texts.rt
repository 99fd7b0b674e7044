//! Which tables have a text. Own.

ghost use Rattle.std.specs.Prelude.{◌≡◌, ◌≤◌, All, None, length};
ghost use Rattle.catalog.specs.Contents.{Contents, IsLawful};
ghost use Rattle.sql_query.specs.Queries.{Query};
ghost use Rattle.sql_query.specs.WellBound.{IsWellBound};
ghost use Rattle.certificate_text.specs.plan_check_Certificates.{Certificate, Entry};
ghost use Rattle.certificate_text.specs.plan_check_Limit.{MOST_ENTRIES};
ghost use Rattle.certificate_text.specs.plan_check_Tables.{IsPlanTable};
ghost use Rattle.certificate_text.specs.HasText.{HasText};
ghost use Rattle.certificate_laws.specs.work.Arms.{HasArmsInOrs};

/// A table of a well bound query that is not too long has a text, where each OR of the query has an arm and its entries have
/// no startup unless the query has a window. A bitmap by an OR without arms would be one of the space, and has no text.
pub fn tables_have_text()
    ensures { (c : Contents) (q : Query) (t : Certificate) → IsLawful c → IsWellBound c q →
        IsPlanTable c q t → HasArmsInOrs q → length t.entries ≤ MOST_ENTRIES →
        (q.window ≡ None → All (λ (e : Entry). e.startup ≡ 0) t.entries) → HasText c q t }
{}
