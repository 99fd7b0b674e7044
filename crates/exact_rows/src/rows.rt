//! A number of rows, exact whatever its size.

ghost use Rattle.std.specs.Prelude.{◌≡◌, ◌≤◌, ◌<◌, ◌*◌, ◌^◌, min};
ghost use Rattle.exact_rows.specs.Rows.{share_kept};
ghost use Rattle.exact_rows.specs.work.Rows.{most_of};

use crate::digits::{BASE, DIGITS, append, cut, multiply, shrink};
use std::marker::Model;

/// The rows of a product of so many tables are counted.
pub const MOST_FACTORS: u64 = 16;

/// A number of rows that is not cut. Contracts see the number.
#[derive(Debug, Drop)]
pub struct ExactRows {
    digits: [u64; DIGITS],
    /// The digits from here on are 0.
    len: usize,
}

impl Model for ExactRows {
    ghost use Rattle.std.specs.Prelude.{ℕ};
    ghost use Rattle.exact_rows.specs.work.Digits.{AreDigits, number};

    ghost Value = { ℕ };

    ghost view = { λ s. number s.digits };

    ghost invariant = { λ s. AreDigits s.len s.digits };
}

impl ExactRows {
    /// `n` rows.
    pub fn of(n: u128) -> ExactRows
        ensures rows { result ≡ n }
    {
        let mut digits = [0; DIGITS];
        let len = append(&mut digits, 0, n);
        ExactRows { digits, len }
    }

    /// The rows of the product with a table of so many. A product of 16 tables of fewer than 2^32 rows each has room.
    pub fn times(&mut self, n: u64)
        requires factor { n < 2 ^ 32 }
        requires room { self.old * n ≤ most_of MOST_FACTORS }
        ensures rows { self.new ≡ self.old * n }
    {
        let carry = multiply(&mut self.digits, self.len, n);
        self.len = append(&mut self.digits, self.len, u128::from(carry));
    }

    /// What a share leaves, rounded up: one row at least. All rows are the share `BASE`.
    pub fn keep(&mut self, share: u32)
        requires share { share ≤ BASE }
        ensures rows { self.new ≡ share_kept self.old share }
    {
        self.len = shrink(&mut self.digits, self.len, u64::from(share));
    }

    /// The number of rows, or `most` where there are more.
    pub fn up_to(&self, most: u64) -> u64
        ensures rows { result ≡ min self.now most }
    {
        cut(&self.digits, self.len, most)
    }
}
