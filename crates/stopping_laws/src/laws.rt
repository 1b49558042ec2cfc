//! What holds of all readings: each law is the contract of a function that does nothing.
ghost use Rattle.stopping_laws.specs.Laws.{ReadingStops};

/// By a table within the forms whose defaults are sound, reading gives a typed value exactly where the value is read, and else
/// the place where reading stops, whatever numbers the defaults hold.
pub fn reading_stops()
    ensures { ReadingStops }
{}
