//! What holds of all tables: each law is the contract of a function that does nothing.

ghost use Rattle.evolve_ways.specs.Ways.{WhatIsLedToIsReached, WhatIsReachedIsLedTo};

/// What a way leads to is reached.
pub fn what_is_led_to_is_reached()
    ensures { WhatIsLedToIsReached }
{}

/// What is reached has a way.
pub fn what_is_reached_is_led_to()
    ensures { WhatIsReachedIsLedTo }
{}
