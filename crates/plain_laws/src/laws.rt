//! The laws of completeness: each is the contract of a function that does nothing.

ghost use Rattle.plain_laws.specs.Laws.{PlainAtNodes, PlainIsConverted, PlainIsFaultless, PlainIsKept, PlainIsSound, PlainIsUnnoted, RowsAreKept, RowsByHeight};

/// A plain document has no note, whatever its setting.
pub fn plain_is_unnoted()
    ensures { PlainIsUnnoted }
{}

/// Nor has it a fault, but that there may be too few levels.
pub fn plain_is_faultless()
    ensures { PlainIsFaultless }
{}

/// With two levels for each schema in another it has none at all.
pub fn plain_is_converted()
    ensures { PlainIsConverted }
{}

/// What is plain by some levels is plain by more.
pub fn rows_are_kept()
    ensures { RowsAreKept }
{}

/// A document that is plain is plain at each greater depth.
pub fn plain_is_kept()
    ensures { PlainIsKept }
{}

/// Its rows are told by as many levels as schemas stand in one another.
pub fn rows_by_height()
    ensures { RowsByHeight }
{}

/// And at the number of its schemas.
pub fn plain_at_nodes()
    ensures { PlainAtNodes }
{}

/// Each reference that stands in one leads to a definition, and no schema has the type `number`.
pub fn plain_is_sound()
    ensures { PlainIsSound }
{}
