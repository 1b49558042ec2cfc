//! Names by rules.
ghost use Rattle.std.specs.Prelude.{◌≡◌, IfOk, OnOk, OnErr, string_bytes};
ghost use Rattle.std.specs.BTreeSet.{insert_key};
ghost use Rattle.attr_parts.specs.Names.{attr_name, multi_name};
ghost use Rattle.attr_defs.specs.Members.{names_cmp};
ghost use Rattle.attr_defs.specs.Renames.{half_renamed, renamed};

use crate::names::insert;
use attr_parts::{MultiName, Name, RenameAllRules, RenameRule, Renamer};
use std::alloc::{AllocError, Global};

// The name with another value.
fn with_value(value: String, name: &Name) -> Name
    ensures { attr_name result ≡ record (attr_name name.now) { text = string_bytes value } }
{
    Name {
        value,
        span: name.span,
    }
}

// A variant's name by the rule, unless an attribute names it.
#[tactic(auto, using(crate::proofs::NameSets::by_other))]
fn variant_half<R: Renamer>(
    alloc: Global,
    renamer: &R,
    rule: RenameRule,
    named: bool,
    name: &Name,
) -> Result<Name, AllocError>
    ensures { IfOk result (λ n. attr_name n ≡ half_renamed R.variant_name rule named (attr_name name.now)) }
{
    if named {
        return name.try_clone(alloc);
    }
    match rule {
        RenameRule::None => name.try_clone(alloc),
        rule => {
            let value = renamer.apply_to_variant(alloc, rule, &name.value)?;
            Ok(with_value(value, name))
        }
    }
}

// A field's name by the rule, unless an attribute names it.
#[tactic(auto, using(crate::proofs::NameSets::by_other))]
fn field_half<R: Renamer>(
    alloc: Global,
    renamer: &R,
    rule: RenameRule,
    named: bool,
    name: &Name,
) -> Result<Name, AllocError>
    ensures { IfOk result (λ n. attr_name n ≡ half_renamed R.field_name rule named (attr_name name.now)) }
{
    if named {
        return name.try_clone(alloc);
    }
    match rule {
        RenameRule::None => name.try_clone(alloc),
        rule => {
            let value = renamer.apply_to_field(alloc, rule, &name.value)?;
            Ok(with_value(value, name))
        }
    }
}

// The two names are others, and the one that is read joins those that are read. Where memory runs out, nothing changes.
fn name_anew(names: &mut MultiName, written: Name, read: Name) -> Result<(), AllocError>
    ensures ok { OnOk result (multi_name names.new ≡ record (multi_name names.old) { serialize = attr_name written; deserialize = attr_name read; aliases = insert_key names_cmp (multi_name names.old).aliases (attr_name read) }) }
    ensures err { OnErr result (multi_name names.new ≡ multi_name names.old) }
{
    let alloc = *read.value.allocator();
    let alias = read.try_clone(alloc)?;
    insert(&mut names.deserialize_aliases, alias)?;
    names.serialize = written;
    names.deserialize = read;
    Ok(())
}

/// A variant's names by rules. Where memory runs out, nothing changes.
pub fn rename_variant<R: Renamer>(
    names: &mut MultiName,
    rules: RenameAllRules,
    renamer: &R,
) -> Result<(), AllocError>
    ensures ok { OnOk result (multi_name names.new ≡ renamed R.variant_name rules (multi_name names.old)) }
    ensures err { OnErr result (multi_name names.new ≡ multi_name names.old) }
{
    let alloc = *names.serialize.value.allocator();
    let written = variant_half(
        alloc,
        renamer,
        rules.serialize,
        names.serialize_renamed,
        &names.serialize,
    )?;
    let read = variant_half(
        alloc,
        renamer,
        rules.deserialize,
        names.deserialize_renamed,
        &names.deserialize,
    )?;
    name_anew(names, written, read)
}

/// A field's names by rules. Where memory runs out, nothing changes.
pub fn rename_field<R: Renamer>(
    names: &mut MultiName,
    rules: RenameAllRules,
    renamer: &R,
) -> Result<(), AllocError>
    ensures ok { OnOk result (multi_name names.new ≡ renamed R.field_name rules (multi_name names.old)) }
    ensures err { OnErr result (multi_name names.new ≡ multi_name names.old) }
{
    let alloc = *names.serialize.value.allocator();
    let written = field_half(
        alloc,
        renamer,
        rules.serialize,
        names.serialize_renamed,
        &names.serialize,
    )?;
    let read = field_half(
        alloc,
        renamer,
        rules.deserialize,
        names.deserialize_renamed,
        &names.deserialize,
    )?;
    name_anew(names, written, read)
}
