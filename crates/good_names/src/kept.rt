//! Which names are kept as they stand.
ghost use Rattle.std.specs.Prelude.{◌≡◌, IfOk};
ghost use Rattle.naming_defs.specs.Derived.{is_derived as is_derived_by};
ghost use Rattle.naming_defs.specs.Good.{is_good_name as is_good, is_composed as is_composed_by};
ghost use Rattle.naming_defs.specs.Names.{is_among, prelude_values, item_is_good, bound_is_good};

use schema_tree::is_kept_name;
use std::alloc::{AllocError, Global};
use unicode_normalization::is_nfc;

// Whether an identifier that is written so is one of these letters, and not of those that they compose to.
fn is_composed(alloc: Global, name: &str) -> Result<bool, AllocError>
    ensures { IfOk result (λ b. b ≡ is_composed_by name.now) }
{
    let composed = is_nfc(alloc, name)?;
    Ok(composed)
}

/// Whether a field of a struct or a variant keeps the name: it spells an identifier, which it is as Rust composes it, and is no word
/// of Rust's own. Fails only for want of memory.
pub fn is_good_name(alloc: Global, name: &str) -> Result<bool, AllocError>
    ensures { IfOk result (λ b. b ≡ is_good name.now) }
{
    let kept = is_kept_name(name);
    let composed = is_composed(alloc, name)?;
    Ok(kept & composed)
}

// Whether derived code or a module of helpers has the name for itself.
fn is_derived(name: &str) -> bool
    ensures { result ≡ is_derived_by name.now }
{
    let bytes = name.as_bytes();
    bytes.starts_with(b"__")
        || bytes.starts_with(b"_serde")
        || name == "typify_present"
        || name == "typify_defaults"
}

/// Whether an item keeps the name: a good one, which derived code has no use for. Fails only for want of memory.
pub fn is_item_name(alloc: Global, name: &str) -> Result<bool, AllocError>
    ensures { IfOk result (λ b. b ≡ item_is_good is_good name.now) }
{
    let good = is_good_name(alloc, name)?;
    Ok(good && !(is_derived(name) || name == "v"))
}

/// Whether a field of a variant keeps the name, if no value has it: a good one, which derived code has no use for. Fails only for
/// want of memory.
pub fn is_bound_name(alloc: Global, name: &str) -> Result<bool, AllocError>
    ensures { IfOk result (λ b. b ≡ bound_is_good is_good name.now) }
{
    let good = is_good_name(alloc, name)?;
    Ok(good && !is_derived(name))
}

/// Whether every module has a value of that name.
pub(crate) fn is_in_prelude(name: &str) -> bool
    ensures { result ≡ is_among name.now prelude_values }
{
    name == "Some" || (name == "None" || (name == "Ok" || name == "Err"))
}
