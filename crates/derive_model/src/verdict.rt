//! Verdicts on values.
ghost use Rattle.std.specs.Prelude.{◌≡◌, Option, Some, None, option_map};
ghost use Rattle.serde_json.specs.View.{view};
ghost use Rattle.derive_model.specs.VerdictView.{verdict_view, taken, refused, written_of, refused_at};

use locations::Location;
use serde_json::Value;

/// What the containers say of a value. `Module::judge` alone makes one.
#[derive(Debug, Drop)]
pub struct Verdict {
    pub(crate) state: State,
}

#[derive(Debug, Drop)]
pub(crate) enum State {
    Taken { written: Value },
    Refused { path: Location },
}

impl Verdict {
    /// The value as it is written back, where it is taken.
    pub fn taken(&self) -> Option<&Value>
        ensures { option_map (λ v. view v.now) result ≡ written_of (verdict_view self.now) }
    {
        match &self.state {
            State::Taken { written } => Some(written),
            State::Refused { .. } => None,
        }
    }

    /// Where reading stopped, by its steps in the value, where it is refused.
    pub fn refused(&self) -> Option<&Location>
        ensures { option_map (λ l. l.now) result ≡ refused_at (verdict_view self.now) }
    {
        match &self.state {
            State::Taken { .. } => None,
            State::Refused { path } => Some(path),
        }
    }
}
