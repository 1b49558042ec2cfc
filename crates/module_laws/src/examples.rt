//! Worked examples.
ghost use Rattle.module_laws.specs.Examples.{Items};

/// Small items, and their tokens in a module.
pub fn items()
    ensures { Items }
{}
