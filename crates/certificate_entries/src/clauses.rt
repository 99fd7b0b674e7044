//! Clauses by the numbers of their conjuncts.

ghost use Rattle.std.specs.Prelude.{◌≡◌, ◌↔◌, ℕ, IfSome, IsTrue, Some};
ghost use Rattle.certificate_text.specs.explain_Texts.{conjunct_in};
ghost use Rattle.sql_query.specs.WellBound.{IsWellBound};

use catalog::Catalog;
use plan_tree::classes_of;
use sql_query::Prepared;

/// The number, from 1, of the conjunct that a clause is. None where there is no such clause, or a class makes it.
fn conjunct_of(q: &Prepared, n: u16) -> Option<u16>
    ensures { result ≡ conjunct_in q.now n }
{
    let classes = classes_of(q);
    if (n as usize) < classes.count() {
        classes.conjunct(n)
    } else {
        None
    }
}

/// Whether a number, where there is one, is this one.
fn is_number(n: Option<u16>, number: u64) -> bool
    ensures { IsTrue result ↔ (n ≡ Some number) }
{
    match n {
        Some(n) => u64::from(n) == number,
        None => false,
    }
}

/// The number of the clause that the conjunct of this number, from 1, is.
pub fn find_clause(cat: &Catalog, q: &Prepared, number: u64) -> Option<u16>
    requires bound { IsWellBound cat.now q.now }
    ensures found { IfSome result (λ n. conjunct_in q.now n ≡ Some number) }
    ensures only { (n : ℕ) → conjunct_in q.now n ≡ Some number → result ≡ Some n }
{
    cat.lawful();
    for n in 0..classes_of(q).count() {
        if is_number(conjunct_of(q, n as u16), number) {
            return Some(n as u16);
        }
    }
    None
}
