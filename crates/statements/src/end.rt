//! Why a step gives no reply.

ghost use Rattle.std.specs.Prelude.{◌≡◌};

use pg_base::{Fault, Refusal};

/// Why a step gives no reply. The machine is then as before.
#[derive(Clone, Copy, Debug, PartialEq, Eq)]
pub enum End {
    /// The statement's first fault; nothing was written.
    Fault(Fault),
    /// Out failed, its count of faults rose, and it may hold a first part of the reply.
    Write,
    /// Out of memory; out may hold a first part of the reply.
    Memory,
}

impl From<std::alloc::AllocError> for End {
    ghost use Rattle.statements.specs.declared.end.End.TheVariants.{Memory};

    ghost from_gives = { λ _ end. end ≡ Memory };

    fn from(_: std::alloc::AllocError) -> End {
        End::Memory
    }
}

impl From<Refusal> for End {
    ghost use Rattle.statements.specs.work.Ending.{end_of_refusal};

    ghost from_gives = { λ refusal end. end ≡ end_of_refusal refusal };

    fn from(refusal: Refusal) -> End {
        match refusal {
            Refusal::Fault(fault) => End::Fault(fault),
            Refusal::Memory => End::Memory,
        }
    }
}
