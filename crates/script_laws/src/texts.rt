//! Laws of the texts of certificates.

ghost use Rattle.std.specs.Prelude.{◌≡◌};
ghost use Rattle.catalog.specs.Contents.{Contents, IsLawful};
ghost use Rattle.certificate_text.specs.HasText.{HasText};
ghost use Rattle.certificate_text.specs.Texts.{certificate_text};
ghost use Rattle.plan_check.specs.Certificates.{Certificate};
ghost use Rattle.statements.specs.plan_reply_Tabled.{IsTabled, tabled_text};
ghost use Rattle.plan_tree.specs.Plans.{Plan};
ghost use Rattle.sql_query.specs.Queries.{Query};
ghost use Rattle.sql_query.specs.WellBound.{IsWellBound};

/// Two certificates of a well bound query that have a text have different ones.
pub fn different_certificates_have_different_texts()
    ensures { (c : Contents) (q : Query) (a b : Certificate) → IsLawful c → IsWellBound c q →
        HasText c q a → HasText c q b → certificate_text c q a ≡ certificate_text c q b → a ≡ b }
{}

/// What EXPLAIN (TABLE) may print of a well bound query tells its plan and its certificate.
pub fn different_tables_have_different_texts()
    ensures { (c : Contents) (q : Query) (p o : Plan) (t u : Certificate) → IsLawful c →
        IsWellBound c q → IsTabled c q p t → IsTabled c q o u →
        tabled_text c q p t ≡ tabled_text c q o u → (p ≡ o) × (t ≡ u) }
{}
