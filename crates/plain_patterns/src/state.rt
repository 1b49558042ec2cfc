//! The order in which pieces may stand.
ghost use Rattle.std.specs.Prelude.{◌≡◌, ◌+◌, ◌<◌, ◌^◌};

/// What kind of piece: what may be repeated is an item.
#[derive(Clone, Copy)]
pub enum Kind {
    Opening,
    Closing,
    Bar,
    Assertion,
    Item,
    Repetition,
}

/// How many groups are open, whether what stands before may be repeated, and whether a bar may stand outside of groups.
#[derive(Clone, Copy)]
pub struct State {
    pub depth: usize,
    pub repeatable: bool,
    pub bars: bool,
}

impl State {
    ghost use Rattle.plain_patterns.specs.Ends.{reached as reached_of, start as at_start, state_after};

    /// Where pieces begin.
    pub fn start(bars: bool) -> State
        ensures { result ≡ at_start bars }
    {
        State {
            depth: 0,
            repeatable: false,
            bars,
        }
    }

    fn reached(self, depth: usize, repeatable: bool) -> State
        ensures { result ≡ reached_of self depth repeatable }
    {
        State {
            depth,
            repeatable,
            bars: self.bars,
        }
    }

    /// After a piece of this kind, where one may stand here.
    pub fn after(self, kind: Kind) -> Option<State>
        requires { self.depth + 1 < 2 ^ 64 }
        ensures { result ≡ state_after self kind }
    {
        match kind {
            Kind::Opening => Some(self.reached(self.depth + 1, false)),
            Kind::Closing if self.depth == 0 => None,
            Kind::Closing => Some(self.reached(self.depth - 1, true)),
            Kind::Bar if self.depth == 0 && !self.bars => None,
            Kind::Bar | Kind::Assertion => Some(self.reached(self.depth, false)),
            Kind::Item => Some(self.reached(self.depth, true)),
            Kind::Repetition if self.repeatable => Some(self.reached(self.depth, false)),
            Kind::Repetition => None,
        }
    }
}
