//! The names of variants and fields, with the others by which they are read.
ghost use Rattle.std.specs.Prelude.{◌≡◌, [], IfOk, OnOk, OnErr, map};
ghost use Rattle.std.specs.BTreeSet.{keys, insert_key};
ghost use Rattle.attr_parts.specs.Names.{attr_name, multi_name};
ghost use Rattle.attr_defs.specs.Members.{names_cmp, name_set};
ghost use Rattle.derive_attr.specs.MemberViews.{names_of};

use crate::name::name_or;
use attr_acts::{Settings, Slot};
use attr_parts::{MultiName, Name, RENAME};
use std::alloc::{AllocError, Global};
use std::collections::BTreeSet;

/// A name more; of two with one value the first stays.
#[tactic(auto, using(crate::proofs::NameSets::inserted))]
pub fn insert(set: &mut BTreeSet<Name>, name: Name) -> Result<(), AllocError>
    ensures ok { OnOk result (map attr_name (keys set.new) ≡ insert_key names_cmp (map attr_name (keys set.old)) (attr_name name)) }
    ensures err { OnErr result (keys set.new ≡ keys set.old) }
{
    let _ = set.insert(name)?;
    Ok(())
}

// The names as a set.
fn set_of(alloc: Global, names: &[Name]) -> Result<BTreeSet<Name>, AllocError>
    ensures { IfOk result (λ s. map attr_name (keys s) ≡ name_set [] (map attr_name names.now)) }
{
    let mut set = BTreeSet::new(alloc);
    for name in names {
        insert(&mut set, name.try_clone(alloc)?)?;
    }
    Ok(set)
}

/// The names of a variant or a field, whose own name is given.
pub fn member_names(alloc: Global, settings: &Settings, own: &Name) -> Result<MultiName, AllocError>
    ensures { IfOk result (λ n. multi_name n ≡ names_of settings.now (attr_name own.now)) }
{
    Ok(MultiName {
        serialize: name_or(alloc, settings, Slot::written(RENAME), own)?,
        serialize_renamed: settings.is_set(Slot::written(RENAME)),
        deserialize: name_or(alloc, settings, Slot::read(RENAME), own)?,
        deserialize_renamed: settings.is_set(Slot::read(RENAME)),
        deserialize_aliases: set_of(alloc, &settings.names)?,
    })
}
