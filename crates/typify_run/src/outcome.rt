//! How a run ends.
ghost use Rattle.std.specs.Prelude.{◌≡◌};

use crate::report::Report;
use schema_tree::Fault;

/// How a run ends. `status` is 0 where a report was printed, 1 where a fault was printed, 2 for other words, 3 for an
/// input that is too long or isn't the object, 4 where reading failed, 5 where writing failed in place of 0 or 1, and 6
/// where memory ran out. The report or the fault is there at 0, 1 and 5 alone.
#[derive(Drop)]
pub struct Outcome {
    pub status: u8,
    pub report: Option<Report>,
    pub fault: Option<Fault>,
}

impl Outcome {
    /// An end without a report and without a fault.
    pub(crate) fn bare(status: u8) -> Outcome
        ensures { result ≡ record { status = status; report = None; fault = None } }
    {
        Outcome {
            status,
            report: None,
            fault: None,
        }
    }
}
