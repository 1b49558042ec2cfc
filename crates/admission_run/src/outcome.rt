//! How a run ends.
ghost use Rattle.std.specs.Prelude.{◌≡◌};
ghost use Rattle.admission_run.specs.Outcome.{status_of};

/// How a run ends.
#[derive(Clone, Copy, Debug, PartialEq, Eq)]
pub enum Outcome {
    /// The page was printed.
    Page,
    /// The line of a fault was printed.
    Fault,
    /// The input is too long, or isn't the object.
    NoInput,
    /// Reading failed.
    ReadFault,
    /// Writing failed, in place of a page or of a line.
    WriteFault,
    /// Memory ran out.
    Memory,
}

impl Outcome {
    /// The status of the process: 0, 1, and 3 to 6, in that order.
    pub fn status(self) -> u8
        ensures { result ≡ status_of self }
    {
        match self {
            Outcome::Page => 0,
            Outcome::Fault => 1,
            Outcome::NoInput => 3,
            Outcome::ReadFault => 4,
            Outcome::WriteFault => 5,
            Outcome::Memory => 6,
        }
    }
}
