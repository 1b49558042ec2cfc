//! What holds of documents that were read, and of the places that are told of values: each law is the contract of a
//! function that does nothing.

ghost use Rattle.schema_laws.specs.Laws.{LocationsAreRead, ReferencesAreResolved, ReferencesStand, SchemasAreRead, SchemasStand, SmallNamesDiffer, ToldPlacesStand, ToldReferencesAreRead};
ghost use Rattle.schema_laws.specs.WideNumbers.{WideNumbersStand};
ghost use Rattle.schema_laws.specs.FaultPlaces.{FaultsArePlaced, NumbersArePlaced};

/// In a document that was read from a value without bad references, each reference leads to the root or to a definition.
pub fn references_are_resolved()
    ensures { ReferencesAreResolved }
{}

/// Each schema of a value in which no name stands twice stands where its steps lead.
pub fn schemas_stand()
    ensures { SchemasStand }
{}

/// A place that is told names a value, and what is told is told of that value.
pub fn told_places_stand()
    ensures { ToldPlacesStand }
{}

/// Where a reference is told, `$ref` stands and holds its text.
pub fn references_stand()
    ensures { ReferencesStand }
{}

/// Each schema of a value stands at its steps in the document that the value is read as.
pub fn schemas_are_read()
    ensures { SchemasAreRead }
{}

/// Whatever schema stands at a location of the document is what the value there is read as.
pub fn locations_are_read()
    ensures { LocationsAreRead }
{}

/// Each reference that is told is one of the document, and one is bad exactly where some reference there has no target.
pub fn told_references_are_read()
    ensures { ToldReferencesAreRead }
{}

/// At the place that is told of a number that is no i64, such a number stands.
pub fn wide_numbers_stand()
    ensures { WideNumbersStand }
{}

/// The names of the members of a small value differ.
pub fn names_of_small_values_differ()
    ensures { SmallNamesDiffer }
{}

/// The places that a fault of a document tells name values inside it, where no name stands twice.
pub fn places_of_faults_stand()
    ensures { FaultsArePlaced }
{}

/// The place that is told of a number that is no i64 lies inside the value of that number, where no name stands twice.
pub fn places_of_numbers_stand()
    ensures { NumbersArePlaced }
{}
