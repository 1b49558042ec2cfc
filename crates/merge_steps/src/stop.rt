//! What ends a step of a merge without an answer.
ghost use Rattle.std.specs.Prelude.{◌≡◌};
ghost use Rattle.merge_parts.specs.declared.fault.MergeFault.TheVariants.{Memory};
ghost use Rattle.merge_steps.specs.declared.stop.Stop.TheVariants.{Fault};

use merge_parts::MergeFault;
use std::alloc::{AllocError, AllocFailed};

/// Why a step has no answer: no value is admitted, or the merge ends with a fault.
#[derive(Drop)]
pub enum Stop {
    Never,
    Fault(MergeFault),
}

impl From<AllocError> for Stop {
    ghost from_gives = { λ _ e. e ≡ Fault Memory };

    fn from(_error: AllocError) -> Stop {
        Stop::Fault(MergeFault::Memory)
    }
}

impl<T: Drop> From<AllocFailed<T>> for Stop {
    ghost from_gives = { λ _ e. e ≡ Fault Memory };

    fn from(_error: AllocFailed<T>) -> Stop {
        Stop::Fault(MergeFault::Memory)
    }
}
