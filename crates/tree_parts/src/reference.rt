//! What a reference names.
ghost use Rattle.std.specs.Prelude.{◌≡◌, ◌++◌, List, ℕ, true, IfOk, option_map, string_bytes};
ghost use Rattle.std.specs.Char.{encode_utf8};
ghost use Rattle.schema_defs.specs.Location.{unescaped};
ghost use Rattle.convert_defs.specs.Table.{target_of};
ghost use Rattle.tree_types.specs.View.{target_view};
ghost use Rattle.tree_parts.specs.Decoding.{left_decodes};

use schema_types::written_name;
use std::alloc::{AllocError, Global};
use tree_types::Target;

/// What the reference leads to: the root for `#`, and the definition NAME for `#/definitions/NAME` and `#/$defs/NAME`, where in
/// NAME `~1` is `/`, `~0` is `~`, and nothing else is decoded.
#[tactic(auto, using(crate::proofs::Names::root_named, crate::proofs::Names::definition_named, crate::proofs::Names::none_named))]
pub fn target_named(alloc: Global, reference: &str) -> Result<Option<Target>, AllocError>
    ensures { IfOk result (λ q. option_map target_view q ≡ target_of reference.now) }
{
    if reference == "#" {
        return Ok(Some(Target::Root));
    }
    match written_name(reference) {
        Some(written) => {
            let name = decoded(alloc, written)?;
            Ok(Some(Target::Definition(name)))
        }
        None => Ok(None),
    }
}

// What the text decodes to.
fn decoded(alloc: Global, escaped: &str) -> Result<String, AllocError>
    ensures { IfOk result (λ s. string_bytes s ≡ unescaped escaped.now) }
{
    let mut name = String::new(alloc);
    let mut behind = false;
    for c in escaped.chars() {
        behind = decode(&mut name, behind, c)?;
    }
    if behind {
        name.push('~')?;
    }
    Ok(name)
}

// Decodes one more character, behind a `~` or not; whether what follows is behind one.
#[tactic(auto, using(crate::proofs::Characters::plain_pushed, crate::proofs::Characters::tilde_met))]
fn decode(name: &mut String, behind: bool, c: char) -> Result<bool, AllocError>
    ensures { IfOk result (λ b. (rest : List ℕ) → string_bytes name.new ++ left_decodes b rest ≡ string_bytes name.old ++ left_decodes behind (encode_utf8 c ++ rest)) }
{
    if behind {
        let next = decode_behind(name, c)?;
        Ok(next)
    } else if c == '~' {
        Ok(true)
    } else {
        name.push(c)?;
        Ok(false)
    }
}

#[tactic(auto, using(crate::proofs::Characters::zero_pushed, crate::proofs::Characters::one_pushed, crate::proofs::Characters::tilde_pushed, crate::proofs::Characters::both_pushed))]
fn decode_behind(name: &mut String, c: char) -> Result<bool, AllocError>
    ensures { IfOk result (λ b. (rest : List ℕ) → string_bytes name.new ++ left_decodes b rest ≡ string_bytes name.old ++ left_decodes true (encode_utf8 c ++ rest)) }
{
    if c == '0' {
        name.push('~')?;
        Ok(false)
    } else if c == '1' {
        name.push('/')?;
        Ok(false)
    } else if c == '~' {
        name.push('~')?;
        Ok(true)
    } else {
        name.push('~')?;
        name.push(c)?;
        Ok(false)
    }
}
