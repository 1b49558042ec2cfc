//! A law on the format `uuid`, beside what judges it: the texts that have it are those that crate `uuid` parses.
#![tactic(auto)]

ghost use Rattle.std.specs.Prelude.{◌≡◌, ℕ, List, is_some};
ghost use Rattle.schema_defs.specs.Formats.{is_uuid};
ghost use Rattle.uuid.specs.Text.{parsed};

/// A text has the format `uuid` where crate `uuid` parses it, and nowhere else.
pub fn uuids_are_what_parses()
    ensures { (s : List ℕ) → is_some (parsed s) ≡ is_uuid s }
{}
