//! The outside: where bytes come from and where they go, each with a count of its faults.

ghost use Rattle.std.specs.Prelude.{◌≡◌, ◌<◌, ◌≤◌, length, IfOk, ℕ, List};
ghost use Rattle.std.specs.declared.option.Option.{Option};
ghost use Rattle.std.specs.Io.{ReadsAtMost, WritesAtMost};
ghost use Rattle.std.specs.Io.KnownBytes.{ReadConsumes, WriteAppends};
ghost use Rattle.pg_base.specs.Causes.{HasCause};

/// The outside failed: a read or a write was not done.
#[derive(Clone, Copy, Debug, PartialEq, Eq)]
pub struct Failed;

/// Where bytes come from.
pub trait Source {
    /// The bytes that are left, where it tells them.
    ghost left: { Self → Option (List ℕ) };

    /// How often it has failed. A count at 2^64 - 1 stays there and counts as risen.
    ghost faults: { Self → ℕ };

    /// Takes the next bytes into the front of `buf` and says how many; 0 is the end.
    /// After `Failed` no byte is taken, and the count of faults rose. After Ok the count is as before.
    fn read(&mut self, buf: &mut [u8]) -> Result<usize, Failed>
        requires { 0 < length buf.old }
        ensures bound { ReadsAtMost result buf.new }
        ensures bytes { ReadConsumes (left self.old) (left self.new) result buf.new }
        ensures cause { HasCause (faults self.old) (faults self.new) result };
}

/// Where bytes go.
pub trait Sink {
    /// The bytes that it holds, where it tells them.
    ghost held: { Self → Option (List ℕ) };

    /// How often it has failed. A count at 2^64 - 1 stays there and counts as risen.
    ghost faults: { Self → ℕ };

    /// Appends the first bytes of `b` and says how many, at least one.
    /// After `Failed` nothing is appended, and the count of faults rose. After Ok the count is as before.
    fn write(&mut self, b: &[u8]) -> Result<usize, Failed>
        requires { 0 < length b.now }
        ensures bound { WritesAtMost result b.now }
        ensures some { IfOk result (λ n. 0 < n) }
        ensures bytes { WriteAppends (held self.old) (held self.new) result b.now }
        ensures cause { HasCause (faults self.old) (faults self.new) result };
}
