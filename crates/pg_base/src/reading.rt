//! A source read to its end.

ghost use Rattle.std.specs.Prelude.{◌≡◌, ◌<◌, ◌≤◌, ◌+◌, ◌^◌, ℕ, List, IfOk, OnOk, IsErrOf, length, vec_len};
ghost use Rattle.std.specs.Io.KnownBytes.{Consumes, IsAtEnd};
ghost use Rattle.pg_base.specs.Causes.{Rose};
ghost use Rattle.pg_base.specs.Reading.{ConsumesUpTo};

use crate::outside::Source;
use std::alloc::{AllocError, Global};

/// Why the whole source was not read.
#[derive(Debug, PartialEq, Eq, Drop)]
pub enum ReadFault {
    /// Memory ran out.
    Memory,
    /// The source failed; its count of faults rose.
    Failed,
    /// The source gave a byte more than the limit.
    TooLong,
}

impl From<AllocError> for ReadFault {
    ghost use Rattle.pg_base.specs.declared.reading.ReadFault.TheVariants.{Memory};

    ghost from_gives = { λ _ e. e ≡ Memory };

    fn from(_: AllocError) -> ReadFault {
        ReadFault::Memory
    }
}

/// All the bytes that are left, at most `limit`. Reading stops at the end, at a fault, or after one byte more than the limit.
/// What was read before an error is let go of, and the source goes on behind it: at most `limit` bytes at `Failed`, one more
/// at `TooLong`, and at most that at `Memory`.
pub fn read_all<S: Source>(
    alloc: Global,
    source: &mut S,
    limit: usize,
) -> Result<Vec<u8>, ReadFault>
    requires { limit < 2 ^ 63 }
    ensures bytes { IfOk result (λ all. Consumes (S.left source.old) (S.left source.new) all.items) }
    ensures end { OnOk result (IsAtEnd (S.left source.new)) }
    ensures within { IfOk result (λ all. vec_len all ≤ limit) }
    ensures too_long { IsErrOf result ReadFault.TooLong → (text : List ℕ) × Consumes (S.left source.old) (S.left source.new) text × (length text ≡ limit + 1) }
    ensures failed { IsErrOf result ReadFault.Failed → Rose (S.faults source.old) (S.faults source.new) }
    ensures left_failed { IsErrOf result ReadFault.Failed → ConsumesUpTo (S.left source.old) (S.left source.new) limit }
    ensures left_memory { IsErrOf result ReadFault.Memory → ConsumesUpTo (S.left source.old) (S.left source.new) (limit + 1) }
    ensures no_fault { (IsErrOf result ReadFault.Failed → ⊥) → S.faults source.new ≡ S.faults source.old }
{
    let mut all = Vec::new(alloc);
    let mut buf = [0u8; 4096];
    'chunks: while all.len() <= limit {
        let room = (limit + 1 - all.len()).min(buf.len());
        match source.read(&mut buf[..room]) {
            Ok(0) => return Ok(all),
            Ok(count) => all.extend_from_slice(&buf[..count])?,
            Err(_) => return Err(ReadFault::Failed),
        }
    }
    Err(ReadFault::TooLong)
}
