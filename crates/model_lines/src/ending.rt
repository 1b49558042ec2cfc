//! How a run ends once there is a report.
ghost use Rattle.std.specs.Prelude.{◌≡◌, Some, None};

use schema_tree::Fault;

/// The status, and the fault that was to be printed.
#[derive(Drop)]
pub(crate) struct Ending {
    pub status: u8,
    pub fault: Option<Fault>,
}

impl Ending {
    /// An end without a fault.
    pub(crate) fn bare(status: u8) -> Ending
        ensures { result ≡ record { status = status; fault = None } }
    {
        Ending {
            status,
            fault: None,
        }
    }

    /// An end that carries a fault.
    pub(crate) fn told(status: u8, fault: Fault) -> Ending
        ensures { result ≡ record { status = status; fault = Some fault } }
    {
        Ending {
            status,
            fault: Some(fault),
        }
    }
}
