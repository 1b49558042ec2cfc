//! Worked examples.
ghost use Rattle.module_texts.specs.Examples.{Modules};

/// Small items, what a rule asks and what a default gives, line by line.
pub fn modules()
    ensures { Modules }
{}
