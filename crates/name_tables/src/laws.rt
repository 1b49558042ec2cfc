//! What holds of all tables of names.
ghost use Rattle.name_tables.specs.Names.{EnteredAreScanned};

/// Names that were entered one after another are found as a scan of them finds the first that has the name.
pub fn entered_are_scanned()
    ensures { EnteredAreScanned }
{}
