//! What holds of faults: each law is the contract of a function that does nothing.

ghost use Rattle.schema_faults.specs.Laws.{FractionsAreFloats, LeadsToTargets, MalformedHasAPlace, ReadsWithoutFaults};

/// A value is malformed exactly where it has a malformed place.
pub fn malformed_has_a_place()
    ensures { MalformedHasAPlace }
{}

/// A value is read as a document, whatever the setting, exactly where no place is malformed and no number that is kept is a fraction.
pub fn reads_without_faults()
    ensures { ReadsWithoutFaults }
{}

/// Where no float stands, no fraction does.
pub fn fractions_are_floats()
    ensures { FractionsAreFloats }
{}

/// A reference leads somewhere exactly where it has a target in the document that was read.
pub fn leads_to_targets()
    ensures { LeadsToTargets }
{}
