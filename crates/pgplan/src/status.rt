//! How a run ends.

ghost use Rattle.std.specs.Prelude.{◌≡◌};
ghost use Rattle.pgplan.specs.Statuses.{line_of};
ghost use Rattle.pgplan.specs.work.Statuses.{number_of, status_of_reading, status_of_work};

use pg_base::ReadFault;
use statements::End;

/// How a run ends. Its number is the program's exit status.
#[derive(Clone, Copy, Debug, PartialEq, Eq)]
pub(crate) enum Status {
    /// All was read, answered and written.
    Done,
    /// The words are no command.
    Usage,
    /// The source failed.
    ReadFault,
    /// A statement has a fault.
    Statement,
    /// Out failed.
    WriteFault,
    /// Out of memory.
    Memory,
    /// The source gave more bytes than a script may have.
    TooLong,
}

impl Status {
    /// The status of a run whose source is not read whole.
    pub(crate) fn of_reading(fault: &ReadFault) -> Status
        ensures { result ≡ status_of_reading fault.now }
    {
        match fault {
            ReadFault::Memory => Status::Memory,
            ReadFault::Failed => Status::ReadFault,
            ReadFault::TooLong => Status::TooLong,
        }
    }

    /// The status of a run, by how its statements ended.
    pub(crate) fn of_work(ended: &Result<(), End>) -> Status
        ensures { result ≡ status_of_work ended.now }
    {
        match ended {
            Ok(()) => Status::Done,
            Err(End::Fault(_)) => Status::Statement,
            Err(End::Write) => Status::WriteFault,
            Err(End::Memory) => Status::Memory,
        }
    }

    /// The exit status.
    pub(crate) fn number(self) -> u8
        ensures { result ≡ number_of self }
    {
        match self {
            Status::Done => 0,
            Status::Usage => 1,
            Status::ReadFault => 2,
            Status::Statement => 3,
            Status::WriteFault => 4,
            Status::Memory => 5,
            Status::TooLong => 6,
        }
    }

    /// The line on the errors sink: none for `Done`, nor for `Statement`, whose line is that of its fault.
    pub(crate) fn line(self) -> &'static [u8]
        ensures { result.now ≡ line_of (number_of self) }
    {
        match self {
            Status::Done | Status::Statement => b"",
            Status::Usage => b"usage: pgplan run | pgplan sample N\n",
            Status::ReadFault => b"ERROR read failed\n",
            Status::WriteFault => b"ERROR write failed\n",
            Status::Memory => b"ERROR 53200 out of memory\n",
            Status::TooLong => b"ERROR 54000 script longer than 16777216 bytes\n",
        }
    }
}
