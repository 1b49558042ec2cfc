//! How a run over lines ends.
ghost use Rattle.std.specs.Prelude.{◌≡◌, None};

use schema_tree::Fault;
use typify_run::Report;

/// How a run over lines ends. `status` is 0 where all lines were answered, 1 where a fault was printed, 2 for other words, 3 for a first
/// line that is missing, too long or not JSON, 4 where reading failed, 5 where writing failed, 6 where memory ran out, and 7 for
/// more than 4,294,967,296 bytes. The report is there as soon as there is one, and the fault at 1, and at 5 and 6 where its line was cut off.
#[derive(Drop)]
pub struct LinesOutcome {
    pub status: u8,
    pub report: Option<Report>,
    pub fault: Option<Fault>,
}

impl LinesOutcome {
    /// An end before there is a report, and without a fault.
    pub(crate) fn bare(status: u8) -> LinesOutcome
        ensures { result ≡ record { status = status; report = None; fault = None } }
    {
        LinesOutcome {
            status,
            report: None,
            fault: None,
        }
    }
}
