//! Laws of what CHECK prints. Own.

ghost use Rattle.std.specs.Prelude.{◌≡◌, ◌<◌, ◌^◌, ◌++◌, ℕ, List, codes, false};
ghost use Rattle.catalog.specs.Contents.{Contents};
ghost use Rattle.sql_query.specs.Queries.{Query};
ghost use Rattle.plan_check.specs.Certificates.{Certificate};
ghost use Rattle.check_reply.specs.Checked.{IsCheckedText, IsReasonText, wrong_line_text, valid_line};
ghost use Rattle.check_reply.specs.work.Checked.{HasWords, IsTableText, is_uncovered};
ghost use Rattle.plan_check.specs.declared.verdict.Reason.{Reason};

/// A line that begins with `valid` is printed of the text of a certificate that is a table of the query alone, and that line
/// is printed of each such text.
pub fn tables_are_valid()
    ensures valid { (c : Contents) (q : Query) (block bytes rest : List ℕ) →
        IsCheckedText c q block bytes → bytes ≡ codes "valid" ++ rest → IsTableText c q block }
    ensures table { (c : Contents) (q : Query) (block bytes : List ℕ) →
        IsCheckedText c q block bytes → IsTableText c q block → bytes ≡ valid_line }
{}

/// Two reasons of a certificate that have one text are the same, but for those that are plans no entry dominates; no reason has
/// the text of a wrong line, and two such lines have different texts.
pub fn reasons_have_their_own_texts()
    ensures reasons { (c : Contents) (q : Query) (t : Certificate) (r o : Reason) (text : List ℕ) →
        HasWords r → HasWords o →
        is_uncovered r ≡ false → IsReasonText c q t r text → IsReasonText c q t o text → r ≡ o }
    ensures faults { (c : Contents) (q : Query) (t : Certificate) (r : Reason) (line : ℕ) →
        ¬ IsReasonText c q t r (wrong_line_text line) }
    ensures lines { (line other : ℕ) → line < 2 ^ 64 → other < 2 ^ 64 →
        wrong_line_text line ≡ wrong_line_text other → line ≡ other }
{}
