//! Numbers as digits, the lowest first.

ghost use Rattle.std.specs.Prelude.{◌≡◌, ◌≤◌, ◌<◌, ◌+◌, ◌-◌, ◌*◌, ◌/◌, ◌^◌, ℕ, length, drop, min};
ghost use Rattle.exact_rows.specs.work.Digits.{AreDigits, number};
ghost use Rattle.exact_rows.specs.Rows.{share_kept};

/// The base of the digits, and the parts that a share is counted in: all rows are so many.
pub const BASE: u64 = 1_000_000_000;
/// The digits that hold the rows of the product of the most tables.
pub(crate) const DIGITS: usize = 18;

/// Multiplies the number of the first `len` digits, and gives what is carried past them.
pub(crate) fn multiply(digits: &mut [u64; DIGITS], len: usize, n: u64) -> u64
    requires factor { n < 2 ^ 32 }
    requires digits { AreDigits len digits.old }
    ensures digits { AreDigits len digits.new }
    ensures number { number digits.new + BASE ^ len * result ≡ number digits.old * n }
{
    let mut carry = 0;
    for i in 0..len {
        let sum = digits[i] * n + carry;
        digits[i] = sum % BASE;
        carry = sum / BASE;
    }
    carry
}

/// Puts the digits of `more` behind the first `len`, and gives the length then.
pub(crate) fn append(digits: &mut [u64; DIGITS], len: usize, more: u128) -> usize
    requires digits { AreDigits len digits.old }
    requires room { number digits.old + BASE ^ len * more < BASE ^ DIGITS }
    ensures digits { AreDigits result digits.new }
    ensures number { number digits.new ≡ number digits.old + BASE ^ len * more }
{
    let mut at = len;
    let mut left = more;
    while left > 0 {
        digits[at] = (left % u128::from(BASE)) as u64;
        left /= u128::from(BASE);
        at += 1;
    }
    at
}

/// Makes the number of the first `len` digits the share of it, rounded up.
pub(crate) fn scale(digits: &mut [u64; DIGITS], len: usize, share: u64)
    requires share { share ≤ BASE }
    requires some { 1 ≤ len }
    requires digits { AreDigits len digits.old }
    ensures digits { AreDigits len digits.new }
    ensures number { number digits.new ≡ (number digits.old * share + (BASE - 1)) / BASE }
{
    let last = len - 1;
    let mut carry = (digits[0] * share + (BASE - 1)) / BASE;
    for i in 0..last {
        let sum = digits[i + 1] * share + carry;
        digits[i] = sum % BASE;
        carry = sum / BASE;
    }
    digits[last] = carry;
}

/// The length without the zeros at the top.
pub(crate) fn trim(digits: &[u64; DIGITS], len: usize) -> usize
    requires digits { AreDigits len digits.now }
    ensures digits { AreDigits result digits.now }
    ensures some { 0 < result → 0 < number digits.now }
{
    let mut top = len;
    while top > 0 {
        if digits[top - 1] > 0 {
            return top;
        }
        top -= 1;
    }
    0
}

/// Makes the number what a share of it leaves, rounded up and at least 1, and gives the length then.
pub(crate) fn shrink(digits: &mut [u64; DIGITS], len: usize, share: u64) -> usize
    requires share { share ≤ BASE }
    requires digits { AreDigits len digits.old }
    ensures digits { AreDigits result digits.new }
    ensures number { number digits.new ≡ share_kept (number digits.old) share }
{
    if len == 0 {
        return append(digits, 0, 1);
    }
    scale(digits, len, share);
    let top = trim(digits, len);
    if top == 0 {
        return append(digits, 0, 1);
    }
    top
}

/// The number, or `most` where it is more.
pub(crate) fn cut(digits: &[u64; DIGITS], len: usize, most: u64) -> u64
    requires digits { AreDigits len digits.now }
    ensures number { result ≡ min (number digits.now) most }
{
    let mut rows = 0;
    for i in (0..len).rev() {
        let next = u128::from(rows) * u128::from(BASE) + u128::from(digits[i]);
        rows = next.min(u128::from(most)) as u64;
    }
    rows
}
