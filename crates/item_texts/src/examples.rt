//! Worked examples.
ghost use Rattle.item_texts.specs.Examples.{Texts};

/// Small items and their texts.
pub fn texts()
    ensures { Texts }
{}
