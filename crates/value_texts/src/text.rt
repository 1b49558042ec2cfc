//! One text of a value.
ghost use Rattle.std.specs.Prelude.{IfOk, string_bytes};
ghost use Rattle.serde_json.specs.View.{view};
ghost use Rattle.value_texts.specs.Texts.{IsTextOf};

use serde_json::Value;
use std::alloc::{AllocError, Global};

/// The value as one JSON text (RFC 8259), and a line feed: each item and each member on a line, two spaces deeper for each bracket, an empty list or
/// object on its line, members in the order of their names. A value without floats has just one such text. Fails where memory runs out.
#[tactic(auto, using(crate::proofs::Exact::text_of_front))]
pub fn value_text(alloc: Global, value: &Value) -> Result<String, AllocError>
    ensures { IfOk result (λ s. IsTextOf (string_bytes s) (view value.now)) }
{
    let mut text = value.to_string_pretty(alloc)?;
    text.push_str("\n")?;
    Ok(text)
}
