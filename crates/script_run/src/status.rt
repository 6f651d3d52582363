// How a run ends.
ghost use Rattle.std.specs.Prelude.{◌≡◌};
ghost use Rattle.script_run.specs.Exit.{exit_number};

/// How a run ends. The number of each, from 0 on, is the exit status of the program.
#[derive(Clone, Copy, Debug, PartialEq, Eq)]
pub enum Status {
    /// The script was done to its last statement, and none was refused.
    Done,
    /// A statement was refused; the line of its fault was written on the error sink.
    Fault,
    /// The words are no run, or the script isn't there.
    Usage,
    /// The bytes are no script.
    Syntax,
    /// The script or a file that it names could not be read.
    Input,
    /// A sink failed.
    Output,
    /// Memory was refused.
    Memory,
}

impl Status {
    /// The exit status, 0 to 6.
    pub fn number(self) -> u8
        ensures { result ≡ exit_number self }
    {
        match self {
            Status::Done => 0,
            Status::Fault => 1,
            Status::Usage => 2,
            Status::Syntax => 3,
            Status::Input => 4,
            Status::Output => 5,
            Status::Memory => 6,
        }
    }
}
