//! What keeps a text from being lexed.
ghost use Rattle.std.specs.Prelude.{◌≡◌};
ghost use Rattle.rust_tokens.specs.declared.error.LexError.TheVariants.{Memory};

use std::alloc::AllocError;
use thiserror::Error;

/// Want of memory, or the byte place of the text's first fault.
#[derive(Debug, Drop, Error)]
pub enum LexError {
    #[error("out of memory")]
    Memory,
    /// No token begins there, or a bracket stands there that has no partner.
    #[error("bad token at {place}")]
    Bad { place: usize },
}

impl From<AllocError> for LexError {
    ghost from_gives = { λ _ e. e ≡ Memory };

    fn from(_error: AllocError) -> LexError {
        LexError::Memory
    }
}
