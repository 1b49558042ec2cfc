//! What holds of all readings.
ghost use Rattle.reading_defs.specs.Laws.{ReadingAgrees};

/// By a table within the forms whose defaults are sound, reading gives a typed value exactly where the value is read, which
/// is written as the value settles; and else the place where reading stops.
pub fn reading_agrees()
    ensures { ReadingAgrees }
{}
