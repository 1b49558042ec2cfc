//! Where a byte stands.
ghost use Rattle.std.specs.Prelude.{◌≡◌};

use crate::run::is_of_numbers;

/// Outside strings, in one, or after a backslash in one.
#[derive(Clone, Copy)]
pub enum Place {
    Outside,
    Inside,
    Escaped,
}

impl Place {
    ghost use Rattle.whole_numbers.specs.Whole.{is_in_run as in_run, place_after};

    /// Whether the byte belongs to a run, if it stands here.
    pub fn is_in_run(self, byte: u8) -> bool
        ensures { result ≡ in_run self byte }
    {
        match self {
            Place::Outside => is_of_numbers(byte),
            Place::Inside | Place::Escaped => false,
        }
    }

    /// Where the byte after this one stands.
    pub fn after(self, byte: u8) -> Place
        ensures { result ≡ place_after self byte }
    {
        match (self, byte) {
            (Place::Outside, b'"') => Place::Inside,
            (Place::Outside, _) => Place::Outside,
            (Place::Inside, b'"') => Place::Outside,
            (Place::Inside, b'\\') => Place::Escaped,
            (Place::Inside | Place::Escaped, _) => Place::Inside,
        }
    }
}
