//! How deep schemas may stand in one another.
ghost use Rattle.std.specs.Prelude.{◌≡◌};
ghost use Rattle.convert_document.specs.Levels.{most_levels};

/// How many schemas may stand in one another, those that merges make with them, so that the stack holds; beyond that memory counts as wanting. It takes no memory.
#[tactic(auto, unfolding(crate::specs::Levels::most_levels))]
pub fn levels() -> u32
    ensures { result ≡ most_levels }
{
    300
}
