//! How fields are written.
ghost use Rattle.std.specs.Prelude.{◌≡◌, ◌++◌, ◌∷◌, [], IfOk, OnOk, codes, string_bytes};
ghost use Rattle.schema_defs.specs.Location.{place as place_step};
ghost use Rattle.syntax_trees.specs.View.{ty};
ghost use Rattle.emit_defs.specs.Models.{defaulted, skipped, held};
ghost use Rattle.emit_defs.specs.Trees.{empty_path, flag, helper_meta, skip_meta, manner_metas, manner_ty};
ghost use Rattle.emit_trees.specs.CarriedView.{all_carried};
ghost use Rattle.emit_trees.specs.MannerView.{empty_view, manner_view};

use crate::carried::{Carried, add_copy, add_flag, add_text};
use attr_parts::{DEFAULT, DESERIALIZE_WITH, SKIP_SERIALIZING_IF};
use std::alloc::{AllocError, Global};
use syntax_trees::Ty;
use type_trees::option_ty;

/// The types that have an empty value.
#[derive(Clone, Copy, PartialEq, Eq)]
pub enum Empty {
    Option,
    Vec,
    Set,
    Map,
}

/// How a field is written.
#[derive(Clone, Copy, PartialEq, Eq)]
pub enum Manner {
    /// As it is.
    Plain,
    /// Present though it leads to an option.
    Whole,
    /// With a stated default.
    Defaulted,
    /// Left out where empty.
    Skipped(Empty),
    /// As what an option holds.
    Held,
}

// The function that says whether a value is empty.
fn empty_path(empty: Empty) -> &'static str
    ensures { result.now ≡ empty_path (empty_view empty) }
{
    match empty {
        Empty::Option => "::std::option::Option::is_none",
        Empty::Vec => "::std::vec::Vec::is_empty",
        Empty::Set => "::std::collections::HashSet::is_empty",
        Empty::Map => "::std::collections::HashMap::is_empty",
    }
}

// The digits of a place.
fn place_text(alloc: Global, place: usize) -> Result<String, AllocError>
    ensures { IfOk result (λ s. string_bytes s ≡ place_step place) }
{
    let text = place.to_string(alloc)?;
    Ok(text)
}

// The function that answers the default of that place.
fn default_path(alloc: Global, place: usize) -> Result<String, AllocError>
    ensures { IfOk result (λ s. string_bytes s ≡ codes "typify_defaults::d" ++ place_step place) }
{
    let digits = place_text(alloc, place)?;
    let mut path = String::from_str(alloc, "typify_defaults::d")?;
    path.push_str(&digits)?;
    Ok(path)
}

fn add_skip(metas: &mut Vec<Carried>, alloc: Global, empty: Empty) -> Result<(), AllocError>
    ensures { OnOk result (all_carried metas.new.items ≡ all_carried metas.old.items ++ skip_meta (empty_view empty) ∷ []) }
{
    add_copy(metas, alloc, SKIP_SERIALIZING_IF, empty_path(empty))?;
    Ok(())
}

fn add_default(metas: &mut Vec<Carried>, alloc: Global, place: usize) -> Result<(), AllocError>
    ensures { OnOk result (all_carried metas.new.items ≡ all_carried metas.old.items ++ manner_metas place defaulted) }
{
    let path = default_path(alloc, place)?;
    add_text(metas, DEFAULT, path)?;
    Ok(())
}

fn add_skipped(metas: &mut Vec<Carried>, alloc: Global, empty: Empty) -> Result<(), AllocError>
    ensures { OnOk result (all_carried metas.new.items ≡ all_carried metas.old.items ++ manner_metas 0 (skipped (empty_view empty))) }
{
    add_flag(metas, DEFAULT)?;
    add_skip(metas, alloc, empty)?;
    Ok(())
}

// What a held field carries beside where it is left out: the default of its type, and the reader of what is there.
fn add_present(metas: &mut Vec<Carried>, alloc: Global) -> Result<(), AllocError>
    ensures { OnOk result (all_carried metas.new.items ≡ all_carried metas.old.items ++ flag (codes "default") ∷ helper_meta (codes "some") ∷ []) }
{
    add_flag(metas, DEFAULT)?;
    add_copy(metas, alloc, DESERIALIZE_WITH, "typify_present::some")?;
    Ok(())
}

fn add_held(metas: &mut Vec<Carried>, alloc: Global) -> Result<(), AllocError>
    ensures { OnOk result (all_carried metas.new.items ≡ all_carried metas.old.items ++ manner_metas 0 held) }
{
    add_present(metas, alloc)?;
    add_skip(metas, alloc, Empty::Option)?;
    Ok(())
}

/// What a field that is written so carries, appended. `place` is that of its default, from 0.
pub fn add_manner(
    metas: &mut Vec<Carried>,
    alloc: Global,
    place: usize,
    manner: Manner,
) -> Result<(), AllocError>
    ensures { OnOk result (all_carried metas.new.items ≡ all_carried metas.old.items ++ manner_metas place (manner_view manner)) }
{
    match manner {
        Manner::Plain => Ok(()),
        Manner::Whole => add_copy(metas, alloc, DESERIALIZE_WITH, "typify_present::whole"),
        Manner::Defaulted => add_default(metas, alloc, place),
        Manner::Skipped(empty) => add_skipped(metas, alloc, empty),
        Manner::Held => add_held(metas, alloc),
    }
}

/// The type of a field that is written so: an option of its own where it is what an option holds.
pub fn held_ty(alloc: Global, manner: Manner, inner: Ty) -> Result<Ty, AllocError>
    ensures { IfOk result (λ t. ty t ≡ manner_ty (manner_view manner) (ty inner)) }
{
    match manner {
        Manner::Plain => Ok(inner),
        Manner::Whole => Ok(inner),
        Manner::Defaulted => Ok(inner),
        Manner::Skipped(_) => Ok(inner),
        Manner::Held => option_ty(alloc, inner),
    }
}
