//! Worked examples.
ghost use Rattle.tidy_texts.specs.Examples.{Texts};

/// Small texts, and what they become.
pub fn texts()
    ensures { Texts }
{}
