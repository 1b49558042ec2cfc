//! Where a conversion begins anew.
use schema_types::{Location, Walk};

/// The root, a definition, or a schema that has a walk of its own: the place at which its notes and faults are told, its walk without the
/// mark of what was made, and whether a merge made it.
pub struct Start {
    pub path: Location,
    pub walk: Walk,
    pub made: bool,
}

impl Drop for Start {
    fn drop(self) {
        let Start {
            path: _path,
            walk: _walk,
            made: _,
        } = self;
    }
}
