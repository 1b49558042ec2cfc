//! What fields, variants and items carry.
ghost use Rattle.std.specs.Prelude.{◌≡◌, ◌++◌, ◌∷◌, [], IfOk, OnOk, option_map, string_bytes, bytes_eq};
ghost use Rattle.emit_defs.specs.Trees.{rename_metas, manner_metas, tag_metas};
ghost use Rattle.emit_trees.specs.CarriedView.{all_carried};
ghost use Rattle.emit_trees.specs.MannerView.{manner_view};
ghost use Rattle.emit_trees.specs.Parts.{tag_model, item_parts, try_from_part};

use crate::carried::{Carried, add_copy, add_flag, add_flag_when, add_text};
use crate::manner::{Manner, add_manner};
use attr_parts::{
    CONTENT, DENY_UNKNOWN_FIELDS, RENAME, TAG, TRANSPARENT, TRY_FROM, TagType, UNTAGGED,
};
use std::alloc::{AllocError, Global};

// Whether the name in JSON is the identifier.
fn is_identifier(identifier: &str, name: &str) -> bool
    ensures { result ≡ bytes_eq identifier.now name.now }
{
    identifier == name
}

/// The name in JSON, appended where it is not the identifier.
#[tactic(auto, using(crate::proofs::Renames::same_name, crate::proofs::Renames::other_name))]
pub fn add_rename(
    metas: &mut Vec<Carried>,
    alloc: Global,
    identifier: &str,
    name: &str,
) -> Result<(), AllocError>
    ensures { OnOk result (all_carried metas.new.items ≡ all_carried metas.old.items ++ rename_metas identifier.now name.now) }
{
    if is_identifier(identifier, name) {
        return Ok(());
    }
    add_copy(metas, alloc, RENAME, name)?;
    Ok(())
}

/// What a variant carries: its name in JSON, where it is not the identifier.
pub(crate) fn variant_metas(
    alloc: Global,
    identifier: &str,
    name: &str,
) -> Result<Vec<Carried>, AllocError>
    ensures { IfOk result (λ v. all_carried v.items ≡ rename_metas identifier.now name.now) }
{
    let mut metas = Vec::new(alloc);
    add_rename(&mut metas, alloc, identifier, name)?;
    Ok(metas)
}

/// What a field carries: its name in JSON, where it is not the identifier, and how it is written. `place` is that of its default, from 0.
pub fn field_metas(
    alloc: Global,
    identifier: &str,
    name: &str,
    place: usize,
    manner: Manner,
) -> Result<Vec<Carried>, AllocError>
    ensures { IfOk result (λ v. all_carried v.items ≡ rename_metas identifier.now name.now ++ manner_metas place (manner_view manner)) }
{
    let mut metas = variant_metas(alloc, identifier, name)?;
    add_manner(&mut metas, alloc, place, manner)?;
    Ok(metas)
}

// How the variant is told, appended.
fn add_tag(metas: &mut Vec<Carried>, alloc: Global, tag: &TagType) -> Result<(), AllocError>
    ensures { OnOk result (all_carried metas.new.items ≡ all_carried metas.old.items ++ tag_metas (tag_model tag.now)) }
{
    match tag {
        TagType::External => Ok(()),
        TagType::Internal { tag } => add_copy(metas, alloc, TAG, tag),
        TagType::Adjacent { tag, content } => {
            add_copy(metas, alloc, TAG, tag)?;
            add_copy(metas, alloc, CONTENT, content)
        }
        TagType::None => add_flag(metas, UNTAGGED),
    }
}

// The type whose values are tried, appended where there is one.
fn add_try_from(metas: &mut Vec<Carried>, try_from: Option<String>) -> Result<(), AllocError>
    ensures { OnOk result (all_carried metas.new.items ≡ all_carried metas.old.items ++ try_from_part (option_map string_bytes try_from)) }
{
    match try_from {
        None => Ok(()),
        Some(text) => add_text(metas, TRY_FROM, text),
    }
}

/// What an item carries: how the variant of an enum is told (`External` for what is no enum), whether it is what it holds, the text of the
/// type whose values are tried, and whether it refuses unknown members.
pub fn item_metas(
    alloc: Global,
    tag: &TagType,
    transparent: bool,
    try_from: Option<String>,
    closed: bool,
) -> Result<Vec<Carried>, AllocError>
    ensures { IfOk result (λ v. all_carried v.items ≡ item_parts (tag_model tag.now) transparent (option_map string_bytes try_from) closed) }
{
    let mut metas = Vec::new(alloc);
    add_tag(&mut metas, alloc, tag)?;
    add_flag_when(&mut metas, transparent, TRANSPARENT)?;
    add_try_from(&mut metas, try_from)?;
    add_flag_when(&mut metas, closed, DENY_UNKNOWN_FIELDS)?;
    Ok(metas)
}
