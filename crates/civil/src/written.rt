//! Short texts that take no memory.

ghost use Rattle.std.specs.Prelude.{◌≡◌, ◌≤◌, ◌<◌, ◌+◌, [], ◌∷◌, ◌++◌, length};
ghost use Rattle.std.specs.Fmt.{decimal};
ghost use Rattle.civil.specs.Shown.{figures, short_figures};

use std::marker::Model;

/// A text of at most 40 bytes. Contracts see its bytes.
pub struct Written {
    room: [u8; 40],
    count: usize,
}

impl Drop for Written {
    fn drop(self) {
        let Written { room: _, count: _ } = self;
    }
}

impl Model for Written {
    ghost use Rattle.std.specs.Prelude.{List, ℕ, ◌≤◌, take};

    ghost Value = { List ℕ };

    ghost view = { λ w. take w.count w.room };

    ghost invariant = { λ w. w.count ≤ 40 };
}

impl Written {
    /// A text of no bytes.
    pub(crate) fn nothing() -> Written
        ensures { result ≡ [] }
    {
        Written {
            room: [0; 40],
            count: 0,
        }
    }

    /// The text.
    pub fn bytes(&self) -> &[u8]
        ensures { result.now ≡ self.now }
    {
        &self.room[..self.count]
    }

    /// Puts one byte at the end.
    pub(crate) fn put(&mut self, byte: u8)
        requires { length self.old < 40 }
        ensures text { self.new ≡ self.old ++ byte ∷ [] }
        ensures long { length self.new ≡ length self.old + 1 }
    {
        self.room[self.count] = byte;
        self.count += 1;
    }

    /// Puts the last so many decimal digits of a number at the end, with zeros before it.
    pub(crate) fn put_figures(&mut self, count: usize, number: u64)
        requires { length self.old + count ≤ 40 }
        ensures text { self.new ≡ self.old ++ figures count number }
        ensures long { length self.new ≡ length self.old + count }
    {
        if count > 0 {
            self.put_figures(count - 1, number / 10);
            self.put(b'0' + (number % 10) as u8);
        }
    }

    /// Puts the last so many decimal digits of a number at the end, without the zeros that they end with.
    pub(crate) fn put_short_figures(&mut self, count: usize, number: u64)
        requires { length self.old + count ≤ 40 }
        ensures text { self.new ≡ self.old ++ short_figures count number }
        ensures long { length self.new ≤ length self.old + count }
    {
        if count > 0 {
            if number % 10 == 0 {
                self.put_short_figures(count - 1, number / 10);
            } else {
                self.put_figures(count, number);
            }
        }
    }

    /// Puts a number in decimal digits at the end.
    pub(crate) fn put_decimal(&mut self, number: u64)
        requires { length self.old + length (decimal number) ≤ 40 }
        ensures text { self.new ≡ self.old ++ decimal number }
        ensures long { length self.new ≡ length self.old + length (decimal number) }
    {
        if number < 10 {
            self.put(b'0' + number as u8);
            return;
        }
        self.put_decimal(number / 10);
        self.put(b'0' + (number % 10) as u8);
    }
}
