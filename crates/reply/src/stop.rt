//! Why a reply is not written whole.

ghost use Rattle.std.specs.Prelude.{◌≡◌};

/// Why a query has no whole reply.
#[derive(Clone, Copy, Debug, PartialEq, Eq)]
pub enum Stop {
    /// No plan of the query is below the limit of costs.
    NoPlan,
    /// Out failed; its count of faults rose.
    Write,
    /// Out of memory.
    Memory,
}

impl From<std::alloc::AllocError> for Stop {
    ghost use Rattle.reply.specs.declared.stop.Stop.TheVariants.{Memory};

    ghost from_gives = { λ _ stop. stop ≡ Memory };

    fn from(_: std::alloc::AllocError) -> Stop {
        Stop::Memory
    }
}

/// Why a text on its way to out is not written whole.
#[derive(Clone, Copy, Debug, PartialEq, Eq)]
pub enum Broken {
    /// Out failed; its count of faults rose.
    Write,
    /// Out of memory.
    Memory,
}

impl From<std::alloc::AllocError> for Broken {
    ghost use Rattle.reply.specs.declared.stop.Broken.TheVariants.{Memory};

    ghost from_gives = { λ _ broken. broken ≡ Memory };

    fn from(_: std::alloc::AllocError) -> Broken {
        Broken::Memory
    }
}

impl From<pg_base::Failed> for Broken {
    ghost use Rattle.reply.specs.declared.stop.Broken.TheVariants.{Write};

    ghost from_gives = { λ _ broken. broken ≡ Write };

    fn from(_: pg_base::Failed) -> Broken {
        Broken::Write
    }
}

impl From<Broken> for Stop {
    ghost use Rattle.reply.specs.work.Stops.{stop_by};

    ghost from_gives = { λ broken stop. stop ≡ stop_by broken };

    fn from(broken: Broken) -> Stop {
        match broken {
            Broken::Write => Stop::Write,
            Broken::Memory => Stop::Memory,
        }
    }
}
