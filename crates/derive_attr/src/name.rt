//! The names of containers, variants and fields.
ghost use Rattle.std.specs.Prelude.{◌≡◌, IfOk, unwrap_or};
ghost use Rattle.token_trees.specs.View.{name_view};
ghost use Rattle.attr_parts.specs.Names.{attr_name, multi_name};
ghost use Rattle.attr_defs.specs.Container.{unraw, plain_name, container_names};
ghost use Rattle.attr_defs.specs.Looks.{name_of, look};
ghost use Rattle.attr_acts.specs.Views.{slot_view};
ghost use Rattle.attr_acts.specs.Kept.{values_in};

use attr_acts::{Settings, Slot};
use attr_parts::{MultiName, Name, RENAME};
use std::alloc::{AllocError, Global};
use std::collections::BTreeSet;
use token_trees::Ident;

// The text without `r#`.
fn without_raw(text: &str) -> &str
    ensures { result.now ≡ unraw text.now }
{
    match text.strip_prefix("r#") {
        Some(rest) => rest,
        None => text,
    }
}

/// The name without `r#`.
pub fn own_name(alloc: Global, ident: &Ident) -> Result<Name, AllocError>
    ensures { IfOk result (λ n. attr_name n ≡ plain_name (name_view ident.now)) }
{
    Ok(Name {
        value: String::from_str(alloc, without_raw(&ident.text))?,
        span: ident.span,
    })
}

/// The name that a slot gives, or else the own one.
pub fn name_or(
    alloc: Global,
    settings: &Settings,
    slot: Slot,
    own: &Name,
) -> Result<Name, AllocError>
    ensures { IfOk result (λ n. attr_name n ≡ unwrap_or (look name_of (values_in settings.now (slot_view slot))) (attr_name own.now)) }
{
    match settings.name(slot) {
        Some(name) => name.try_clone(alloc),
        None => own.try_clone(alloc),
    }
}

/// The names of a container.
pub fn container_names(
    alloc: Global,
    settings: &Settings,
    ident: &Ident,
) -> Result<MultiName, AllocError>
    ensures { IfOk result (λ n. multi_name n ≡ container_names (values_in settings.now) (plain_name (name_view ident.now))) }
{
    let own = own_name(alloc, ident)?;
    Ok(MultiName {
        serialize: name_or(alloc, settings, Slot::written(RENAME), &own)?,
        serialize_renamed: settings.is_set(Slot::written(RENAME)),
        deserialize: name_or(alloc, settings, Slot::read(RENAME), &own)?,
        deserialize_renamed: settings.is_set(Slot::read(RENAME)),
        deserialize_aliases: BTreeSet::new(alloc),
    })
}
