//! How a run of the program ends.
ghost use Rattle.std.specs.Prelude.{◌≡◌};
ghost use Rattle.xsubpp.specs.StatusNumbers.{number_of};

/// How a run of the program ends. The process ends with the status's number, which counts from 0 in
/// this order.
#[derive(Clone, Copy, Debug, PartialEq, Eq)]
pub enum Status {
    /// The text is out.
    Done,
    /// A file was refused, and `err` has its first fault.
    Refused,
    /// The words are no command.
    Usage,
    /// A named file is not there.
    Missing,
    /// The reading of a file failed.
    ReadFault,
    /// A write failed.
    WriteFault,
    /// No memory was found.
    Memory,
}

impl Status {
    /// The number that the process ends with.
    pub fn number(self) -> u8
        ensures { result ≡ number_of self }
    {
        match self {
            Status::Done => 0,
            Status::Refused => 1,
            Status::Usage => 2,
            Status::Missing => 3,
            Status::ReadFault => 4,
            Status::WriteFault => 5,
            Status::Memory => 6,
        }
    }
}
