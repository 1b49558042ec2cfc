//! How far a default is read.
ghost use Rattle.std.specs.Prelude.{◌≡◌, ◌<◌, ◌-◌};

/// So many levels of reading may stand in one another: parts of values, references, and defaults of what is left out. Values nest 127 deep at most, so
/// that a default alone doesn't come to this.
pub const MOST_LEVELS: usize = 1000;

/// How many defaults may still be read inside one another, and how many levels.
#[derive(Clone, Copy)]
pub struct Room {
    pub inside: usize,
    pub levels: usize,
}

/// One default further.
pub fn further(room: Room) -> Room
    requires { 0 < room.inside }
    ensures { result.inside ≡ room.inside - 1 }
{
    Room {
        inside: room.inside - 1,
        levels: room.levels,
    }
}

/// One level deeper.
pub fn deeper(room: Room) -> Room
    requires { 0 < room.levels }
    ensures { result.inside ≡ room.inside }
{
    Room {
        inside: room.inside,
        levels: room.levels - 1,
    }
}
