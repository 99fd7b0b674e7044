//! Bytes written to a sink in pieces, without memory.

ghost use Rattle.std.specs.Prelude.{◌≡◌, OnOk, OnErr, map};
ghost use Rattle.std.specs.List.{flat_map};
ghost use Rattle.std.specs.Char.{to_ascii_lowercase};
ghost use Rattle.std.specs.Io.KnownBytes.{Appends};
ghost use Rattle.pg_base.specs.Causes.{HasCause};
ghost use Rattle.pg_base.specs.Writing.{AppendsPrefix};

use pg_base::{Failed, Sink, write_all};

/// Writes all of these texts, one after another; at `Err` the sink has a prefix of them.
pub(crate) fn write_pieces<E: Sink>(errors: &mut E, pieces: &[&[u8]]) -> Result<(), Failed>
    ensures ok { OnOk result (Appends (E.held errors.old) (E.held errors.new)
        (flat_map (λ p. p.now) pieces.now)) }
    ensures err { OnErr result (AppendsPrefix (E.held errors.old) (E.held errors.new)
        (flat_map (λ p. p.now) pieces.now)) }
    ensures cause { HasCause (E.faults errors.old) (E.faults errors.new) result }
{
    'pieces: for piece in pieces {
        write_all(errors, piece)?;
    }
    Ok(())
}

/// Writes a text with each ASCII capital made small; at `Err` the sink has a prefix of it.
pub(crate) fn write_small<E: Sink>(errors: &mut E, word: &[u8]) -> Result<(), Failed>
    ensures ok { OnOk result (Appends (E.held errors.old) (E.held errors.new)
        (map to_ascii_lowercase word.now)) }
    ensures err { OnErr result (AppendsPrefix (E.held errors.old) (E.held errors.new)
        (map to_ascii_lowercase word.now)) }
    ensures cause { HasCause (E.faults errors.old) (E.faults errors.new) result }
{
    'bytes: for byte in word {
        write_all(errors, &[byte.to_ascii_lowercase()])?;
    }
    Ok(())
}
