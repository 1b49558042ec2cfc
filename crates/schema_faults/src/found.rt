//! A place in a value, found on the way out.

ghost use Rattle.std.specs.Prelude.{◌≡◌, [], ◌∷◌, IfOk};
ghost use Rattle.schema_defs.specs.Location.{place as place_step};

use locations::Location;
use std::alloc::{AllocError, Global};
use std::marker::Model;

/// A place in a document, and a text that is told of it.
#[derive(Debug, Drop)]
pub struct Place {
    pub path: Location,
    pub text: String,
}

impl Model for Place {
    ghost use Rattle.std.specs.Prelude.{ℕ, List, string_bytes};

    ghost Value = { List (List ℕ) × List ℕ };

    ghost view = { λ p. (p.path, string_bytes p.text) };
}

/// A place that is found, with the last of its steps first.
#[derive(Drop)]
pub struct Found {
    back: Vec<String>,
    told: String,
}

impl Model for Found {
    ghost use Rattle.std.specs.Prelude.{ℕ, List, map, reverse, string_bytes};

    ghost Value = { List (List ℕ) × List ℕ };

    ghost view = { λ f. (reverse (map string_bytes f.back.items), string_bytes f.told) };
}

impl Found {
    /// Here.
    pub fn here(alloc: Global, text: &str) -> Result<Found, AllocError>
        ensures { IfOk result (λ f. f ≡ ([], text.now)) }
    {
        Ok(Found {
            back: Vec::new(alloc),
            told: String::from_str(alloc, text)?,
        })
    }

    /// As it is seen from one step before.
    pub fn under(self, alloc: Global, step: &str) -> Result<Found, AllocError>
        ensures { IfOk result (λ f. f ≡ (step.now ∷ self.0, self.1)) }
    {
        let mut longer = self;
        longer.back.push(String::from_str(alloc, step)?)?;
        Ok(longer)
    }

    /// As it is seen from the list that it stands in, at that place.
    pub fn under_place(self, alloc: Global, place: usize) -> Result<Found, AllocError>
        ensures { IfOk result (λ f. f ≡ (place_step place ∷ self.0, self.1)) }
    {
        let step = place.to_string(alloc)?;
        self.under(alloc, &step)
    }

    /// With its steps from the root.
    pub fn into_place(self) -> Place
        ensures { result ≡ self }
    {
        let mut steps = self.back;
        steps.reverse();
        Place {
            path: Location { steps },
            text: self.told,
        }
    }
}
