//! Where a schema or a value stands: the steps that lead to it from the root, and walks of such places.
ghost use Rattle.std.specs.Prelude.{◌≡◌, [], ◌∷◌, ◌++◌, IfOk, map, string_bytes};
ghost use Rattle.schema_defs.specs.Location.{escaped, location_text};
ghost use Rattle.locations.specs.Walk.{first_of_walk, last_of_walk};

use std::alloc::{AllocError, Global};
use std::marker::Model;

/// A place in a document or a value, by the steps from its root. A step is a keyword, a member name, or the decimal
/// digits of a place in a list.
#[derive(Debug)]
pub struct Location {
    pub steps: Vec<String>,
}

impl Drop for Location {
    fn drop(self) {
        let Location { steps: _steps } = self;
    }
}

impl Model for Location {
    ghost use Rattle.std.specs.Prelude.{ℕ, List, map, string_bytes};

    ghost Value = { List (List ℕ) };

    ghost view = { λ a. map string_bytes a.steps.items };
}

impl Location {
    /// The root. It takes no memory.
    pub fn root(alloc: Global) -> Location
        ensures { result ≡ [] }
    {
        Location {
            steps: Vec::new(alloc),
        }
    }

    /// The place one step further.
    pub fn child(&self, alloc: Global, step: &str) -> Result<Location, AllocError>
        ensures { IfOk result (λ l. l ≡ self.now ++ step.now ∷ []) }
    {
        let mut longer = self.try_clone(alloc)?;
        longer.steps.push(String::from_str(alloc, step)?)?;
        Ok(longer)
    }

    /// A copy.
    pub fn try_clone(&self, alloc: Global) -> Result<Location, AllocError>
        ensures { IfOk result (λ l. l ≡ self.now) }
    {
        Ok(Location {
            steps: copy_steps(alloc, &self.steps)?,
        })
    }

    /// The place as a text: `#`, then `/` and each step, where `~` is written `~0` and `/` is written `~1` (RFC 6901, in
    /// a fragment without percent signs).
    pub fn text(&self, alloc: Global) -> Result<String, AllocError>
        ensures { IfOk result (λ s. string_bytes s ≡ location_text self.now) }
    {
        let mut text = String::from_str(alloc, "#")?;
        for step in &self.steps {
            text.push('/')?;
            push_escaped(&mut text, step)?;
        }
        Ok(text)
    }
}

fn copy_steps(alloc: Global, steps: &Vec<String>) -> Result<Vec<String>, AllocError>
    ensures { IfOk result (λ v. map string_bytes v.items ≡ map string_bytes steps.now.items) }
{
    let mut copies = Vec::with_capacity(alloc, steps.len())?;
    for step in steps {
        copies.push(String::from_str(alloc, step)?)?;
    }
    Ok(copies)
}

// Writes one step at the end of the text.
fn push_escaped(text: &mut String, step: &str) -> Result<(), AllocError>
    ensures { IfOk result (λ _. string_bytes text.new ≡ string_bytes text.old ++ escaped step.now) }
{
    for c in step.chars() {
        match c {
            '~' => text.push_str("~0")?,
            '/' => text.push_str("~1")?,
            _ => text.push(c)?,
        }
    }
    Ok(())
}

/// A walk: the places that it comes by, one after the other.
#[derive(Debug)]
pub struct Walk {
    pub locations: Vec<Location>,
}

impl Drop for Walk {
    fn drop(self) {
        let Walk {
            locations: _locations,
        } = self;
    }
}

impl Model for Walk {
    ghost use Rattle.std.specs.Prelude.{ℕ, List};

    ghost Value = { List (List (List ℕ)) };

    ghost view = { λ a. a.locations.items };
}

impl Walk {
    /// A copy of the first place, or the root where the walk has none.
    pub fn first(&self, alloc: Global) -> Result<Location, AllocError>
        ensures { IfOk result (λ l. l ≡ first_of_walk self.now) }
    {
        match self.locations.first() {
            Some(location) => location.try_clone(alloc),
            None => Ok(Location::root(alloc)),
        }
    }

    /// A copy of the last place, or the root where the walk has none.
    #[tactic(auto, using(crate::proofs::Walks::last_is_end))]
    pub fn last(&self, alloc: Global) -> Result<Location, AllocError>
        ensures { IfOk result (λ l. l ≡ last_of_walk self.now) }
    {
        match self.locations.last() {
            Some(location) => location.try_clone(alloc),
            None => Ok(Location::root(alloc)),
        }
    }

    /// A copy.
    pub fn try_clone(&self, alloc: Global) -> Result<Walk, AllocError>
        ensures { IfOk result (λ w. w ≡ self.now) }
    {
        let mut locations = Vec::with_capacity(alloc, self.locations.len())?;
        for location in &self.locations {
            locations.push(location.try_clone(alloc)?)?;
        }
        Ok(Walk { locations })
    }
}
