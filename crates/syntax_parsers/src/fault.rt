//! What a parser may answer in place of a tree.
ghost use Rattle.std.specs.Prelude.{◌≡◌};
ghost use Rattle.syntax_parsers.specs.declared.fault.ParseFault.TheVariants.{Memory, Syntax};

use std::alloc::{AllocError, AllocFailed};
use syntax_trees::SyntaxError;

/// Why there is no tree: memory ran out, or the tokens spell none.
#[derive(Drop)]
pub enum ParseFault {
    Memory,
    Syntax(SyntaxError),
}

impl From<AllocError> for ParseFault {
    ghost from_gives = { λ _ e. e ≡ Memory };

    fn from(_e: AllocError) -> ParseFault {
        ParseFault::Memory
    }
}

impl<T: Drop> From<AllocFailed<T>> for ParseFault {
    ghost from_gives = { λ _ e. e ≡ Memory };

    fn from(_e: AllocFailed<T>) -> ParseFault {
        ParseFault::Memory
    }
}

impl From<SyntaxError> for ParseFault {
    ghost from_gives = { λ s e. e ≡ Syntax s };

    fn from(error: SyntaxError) -> ParseFault {
        ParseFault::Syntax(error)
    }
}
