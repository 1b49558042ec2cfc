//! What holds of all readings: each law is the contract of a function that does nothing.
ghost use Rattle.typed_laws.specs.Laws.{WhatIsReadIsTyped};

/// By a table whose writings are read back, what a value is read as is a typed value of the type.
pub fn what_is_read_is_typed()
    ensures { WhatIsReadIsTyped }
{}
