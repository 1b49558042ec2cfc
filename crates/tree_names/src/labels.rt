//! Labels with the names that are given, and copies of what has none.
ghost use Rattle.std.specs.Prelude.{◌≡◌, IfOk, codes};
ghost use Rattle.good_names.specs.Given.{Does, name_given, item_given};
ghost use Rattle.tree_types.specs.View.{atom_view, label_view, target_view};

use good_names::GivenNames;
use std::alloc::{AllocError, Global};
use tree_types::{Atom, Label, Target};

/// The label with the name that is given for the one that it has.
pub(crate) fn new_label<'d>(
    alloc: Global,
    names: &mut GivenNames,
    prefix: &str,
    label: &Label<'d>,
) -> Result<Label<'d>, AllocError>
    ensures named { IfOk result (λ l. Does prefix.now names.old names.new (label_view l) (name_given prefix.now (label_view label.now))) }
    ensures wanted { IfOk result (λ l. l.wanted.now ≡ label.now.wanted.now) }
{
    match &label.given {
        Some(name) => {
            let given = names.give(alloc, prefix, name)?;
            Ok(Label {
                wanted: label.wanted,
                given: Some(given),
            })
        }
        None => {
            let given = names.give(alloc, prefix, label.wanted)?;
            Ok(Label {
                wanted: label.wanted,
                given: Some(given),
            })
        }
    }
}

/// The label with the name that is given for the one that it has, as an item's. The item may stand for a value.
pub(crate) fn item_label<'d>(
    alloc: Global,
    names: &mut GivenNames,
    label: &Label<'d>,
    is_value: bool,
) -> Result<Label<'d>, AllocError>
    ensures named { IfOk result (λ l. Does (codes "Type") names.old names.new (label_view l) (item_given is_value (label_view label.now))) }
    ensures wanted { IfOk result (λ l. l.wanted.now ≡ label.now.wanted.now) }
{
    match &label.given {
        Some(name) => {
            let given = names.give_item(alloc, name, is_value)?;
            Ok(Label {
                wanted: label.wanted,
                given: Some(given),
            })
        }
        None => {
            let given = names.give_item(alloc, label.wanted, is_value)?;
            Ok(Label {
                wanted: label.wanted,
                given: Some(given),
            })
        }
    }
}

/// A label of the same names.
pub(crate) fn copy_label<'d>(alloc: Global, label: &Label<'d>) -> Result<Label<'d>, AllocError>
    ensures named { IfOk result (λ l. label_view l ≡ label_view label.now) }
    ensures wanted { IfOk result (λ l. l.wanted.now ≡ label.now.wanted.now) }
{
    match &label.given {
        Some(name) => Ok(Label {
            wanted: label.wanted,
            given: Some(String::from_str(alloc, name)?),
        }),
        None => Ok(Label {
            wanted: label.wanted,
            given: None,
        }),
    }
}

pub(crate) fn copy_target(alloc: Global, target: &Target) -> Result<Target, AllocError>
    ensures { IfOk result (λ q. target_view q ≡ target_view target.now) }
{
    match target {
        Target::Root => Ok(Target::Root),
        Target::Definition(key) => Ok(Target::Definition(String::from_str(alloc, key)?)),
    }
}

pub(crate) fn copy_atom(alloc: Global, atom: &Atom) -> Result<Atom, AllocError>
    ensures { IfOk result (λ a. atom_view a ≡ atom_view atom.now) }
{
    match atom {
        Atom::Bool => Ok(Atom::Bool),
        Atom::Integer(name) => Ok(Atom::Integer(*name)),
        Atom::Text => Ok(Atom::Text),
        Atom::Native(format) => Ok(Atom::Native(*format)),
        Atom::Any => Ok(Atom::Any),
        Atom::Unit => Ok(Atom::Unit),
        Atom::Reference(target) => Ok(Atom::Reference(copy_target(alloc, target)?)),
    }
}
