ghost use Rattle.std.specs.Prelude.{◌≡◌};
ghost use Rattle.mon_main.specs.Statuses as spec;

/// How a command ended. The numbers are the exit statuses of the program.
#[derive(Clone, Copy, Debug, PartialEq, Eq)]
pub enum Status {
    /// The command was done.
    Done = 0,
    /// The words are no command.
    Usage = 2,
    /// FILE has a fault of its own: of its text, of its syntax, or of its module.
    Source = 3,
    /// PLAN has a faulty line.
    Plan = 4,
    /// The store refused to read a file.
    ReadFault = 5,
    /// The sink refused to write.
    WriteFault = 6,
    /// There was not enough memory. Nothing was written.
    Memory = 7,
}

impl Status {
    /// The exit status.
    pub fn code(self) -> u8
        ensures { result ≡ spec.code_of self }
    {
        match self {
            Status::Done => 0,
            Status::Usage => 2,
            Status::Source => 3,
            Status::Plan => 4,
            Status::ReadFault => 5,
            Status::WriteFault => 6,
            Status::Memory => 7,
        }
    }
}
