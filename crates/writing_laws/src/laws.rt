//! What holds of all writings: each law is the contract of a function that does nothing.
ghost use Rattle.writing_laws.specs.Laws.{KindsAreSound, SettledIsReadAlike, WrittenIsReadBack};

/// Reading what was written gives the same typed value: where untagged variants have pairwise disjoint kinds, names lead
/// back to what is written under them, and rules list scalars alone.
pub fn written_is_read_back()
    ensures { WrittenIsReadBack }
{}

/// What a value that is read settles to is read as the same typed value.
pub fn settled_is_read_alike()
    ensures { SettledIsReadAlike }
{}

/// Each value that a type reads has one of the kinds that the type may read.
pub fn kinds_are_sound()
    ensures { KindsAreSound }
{}
