//! How a word ends.
ghost use Rattle.std.specs.Prelude.{◌≡◌};
ghost use Rattle.schema_words.specs.Outcome.{status_of};

/// How a word ends.
#[derive(Clone, Copy, Debug, PartialEq, Eq)]
pub enum Ended {
    /// The page was printed.
    Page,
    /// The line of a fault was printed.
    Fault,
    /// The words are others.
    OtherWords,
    /// The input is too long, or isn't JSON.
    NoInput,
    /// Reading failed.
    ReadFault,
    /// Writing failed, in place of a page or of a line.
    WriteFault,
    /// Memory ran out.
    Memory,
    /// The line was printed that says that there is no page.
    No,
}

impl Ended {
    /// The status of the process: 0 to 6 in that order, and 8.
    pub fn status(self) -> u8
        ensures { result ≡ status_of self }
    {
        match self {
            Ended::Page => 0,
            Ended::Fault => 1,
            Ended::OtherWords => 2,
            Ended::NoInput => 3,
            Ended::ReadFault => 4,
            Ended::WriteFault => 5,
            Ended::Memory => 6,
            Ended::No => 8,
        }
    }
}
