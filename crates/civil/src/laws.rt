//! Laws of what is read and what is printed.

ghost use Rattle.std.specs.Prelude.{◌≡◌, ℕ, List, codes, ℤ, pos, neg_ℤ, Ok, true};
ghost use Rattle.civil.specs.Days.{is_date_number};
ghost use Rattle.civil.specs.Numerics.{is_numeric_number, numeric_value};
ghost use Rattle.civil.specs.Shown.{date_text_of, numeric_text_of, timestamp_text_of, timestamptz_text_of};
ghost use Rattle.civil.specs.Times.{date_value, is_instant, timestamp_value, timestamptz_value};

/// What a text spells is a value of its type.
pub fn values_are_in_range()
    ensures date { (text : List ℕ) (n : ℤ) → date_value text ≡ Ok n → is_date_number n ≡ true }
    ensures timestamp { (text : List ℕ) (n : ℤ) → timestamp_value text ≡ Ok n → is_instant n ≡ true }
    ensures timestamptz { (text : List ℕ) (n : ℤ) → timestamptz_value text ≡ Ok n → is_instant n ≡ true }
    ensures numeric { (digits scale : ℕ) (text : List ℕ) (n : ℤ) →
        numeric_value digits scale text ≡ Ok n → is_numeric_number digits scale n ≡ true }
{}

/// The text of a date spells it.
pub fn dates_are_read_back()
    ensures { (n : ℤ) → is_date_number n ≡ true → date_value (date_text_of n) ≡ Ok n }
{}

/// The text of a timestamp, with time zone or without, spells it.
pub fn timestamps_are_read_back()
    ensures timestamp { (n : ℤ) → is_instant n ≡ true → timestamp_value (timestamp_text_of n) ≡ Ok n }
    ensures timestamptz { (n : ℤ) → is_instant n ≡ true → timestamptz_value (timestamptz_text_of n) ≡ Ok n }
{}

/// The text of a numeric spells it.
pub fn numerics_are_read_back()
    ensures { (digits scale : ℕ) (n : ℤ) → is_numeric_number digits scale n ≡ true → numeric_value digits scale (numeric_text_of scale n) ≡ Ok n }
{}

/// Two values of one type have two texts.
pub fn texts_differ()
    ensures date { (m n : ℤ) → is_date_number m ≡ true → is_date_number n ≡ true → date_text_of m ≡ date_text_of n → m ≡ n }
    ensures timestamp { (m n : ℤ) → is_instant m ≡ true → is_instant n ≡ true → timestamp_text_of m ≡ timestamp_text_of n → m ≡ n }
    ensures timestamptz { (m n : ℤ) → is_instant m ≡ true → is_instant n ≡ true → timestamptz_text_of m ≡ timestamptz_text_of n → m ≡ n }
    ensures numeric { (digits scale : ℕ) (m n : ℤ) → is_numeric_number digits scale m ≡ true → is_numeric_number digits scale n ≡ true →
        numeric_text_of scale m ≡ numeric_text_of scale n → m ≡ n }
{}

/// The texts at the ends of the ranges, about the epoch, and of a number between -1 and 0.
pub fn ends_are_printed()
    ensures first_day { date_text_of (neg_ℤ (pos 730_119)) ≡ codes "0001-01-01" }
    ensures last_day { date_text_of (pos 2_921_939) ≡ codes "9999-12-31" }
    ensures epoch { date_text_of (pos 0) ≡ codes "2000-01-01" }
    ensures first { timestamp_text_of (neg_ℤ (pos 63_082_281_600_000_000)) ≡ codes "0001-01-01 00:00:00" }
    ensures last { timestamp_text_of (pos 252_455_615_999_999_999) ≡ codes "9999-12-31 23:59:59.999999" }
    ensures before_epoch { timestamptz_text_of (neg_ℤ (pos 500_000)) ≡ codes "1999-12-31 23:59:59.5+00" }
    ensures numeric { numeric_text_of 2 (neg_ℤ (pos 5)) ≡ codes "-0.05" }
{}
