//! How fields are written.

/// How the fields of a container or a variant are written: with names, without, a single one without, or none at all.
#[derive(Clone, Copy, PartialEq, Eq)]
pub enum Style {
    Struct,
    Tuple,
    Newtype,
    Unit,
}
