//! What ends a merge without an answer.
ghost use Rattle.std.specs.Prelude.{◌≡◌};
ghost use Rattle.merge_parts.specs.declared.fault.MergeFault.TheVariants.{Memory};

use locations::Walk;
use std::alloc::{AllocError, AllocFailed};

/// What no merge is made of.
#[derive(Clone, Copy, PartialEq, Eq)]
pub enum UnsupportedMerge {
    /// `if`, `then` or `else`.
    Conditional,
    /// `anyOf` beside `oneOf`.
    AnyBesideOne,
    /// Patterns of names that may bind a property of the other side.
    PatternNames,
    /// What nothing can be taken away from.
    Subtracting,
}

/// Why there is no merge: memory ran out, a walk has too many steps, or a keyword isn't supported.
#[derive(Drop)]
pub enum MergeFault {
    Memory,
    Depth(Walk),
    Unsupported(UnsupportedMerge),
}

impl From<AllocError> for MergeFault {
    ghost from_gives = { λ _ e. e ≡ Memory };

    fn from(_error: AllocError) -> MergeFault {
        MergeFault::Memory
    }
}

impl<T: Drop> From<AllocFailed<T>> for MergeFault {
    ghost from_gives = { λ _ e. e ≡ Memory };

    fn from(_error: AllocFailed<T>) -> MergeFault {
        MergeFault::Memory
    }
}
