//! Worked examples.
ghost use Rattle.tidy_laws.specs.Examples.{Tidied};

/// Tokens, tidied and read again.
pub fn tidied()
    ensures { Tidied }
{}
