//! Names that are free beside others: a prefix with the first number that gives one.
#![tactic(auto)]

ghost use Rattle.std.specs.Prelude.{◌≡◌, ◌||◌, List, ℕ, IfOk, OnOk, bytes_eq, string_bytes};
ghost use Rattle.std.specs.BTreeSet.{contains_text};
ghost use Rattle.naming_defs.specs.Names.{numbered};
ghost use Rattle.free_names.specs.Free.{first_untaken};

use std::alloc::{AllocError, Global};
use std::collections::BTreeSet;

/// Takes a name. On an error the names may have it or not.
pub fn take(names: &mut BTreeSet<String>, alloc: Global, name: &str) -> Result<(), AllocError>
    ensures { OnOk result ((n : List ℕ) → contains_text names.new n ≡ (bytes_eq n name.now || contains_text names.old n)) }
{
    let copy = String::from_str(alloc, name)?;
    let _ = names.insert(copy)?;
    Ok(())
}

/// A prefix with a number. Fails only for want of memory.
#[tactic(auto, using(crate::proofs::Steps::written))]
pub fn numbered(alloc: Global, prefix: &str, number: usize) -> Result<String, AllocError>
    ensures { IfOk result (λ s. string_bytes s ≡ numbered prefix.now number) }
{
    let mut name = String::from_str(alloc, prefix)?;
    let digits = number.to_string(alloc)?;
    name.push_str(&digits)?;
    Ok(name)
}

/// The prefix with the first number from 0 that gives a name which isn't taken. No more than `count` of them may be taken: of more numbers
/// than names one is free, so it is enough that `count` is the number of the names.
#[tactic(auto, using(crate::proofs::Steps::spent))]
pub fn free_name(
    alloc: Global,
    prefix: &str,
    names: &BTreeSet<String>,
    count: usize,
) -> Result<String, AllocError>
    ensures { IfOk result (λ s. string_bytes s ≡ first_untaken prefix.now (contains_text names.now) count 0) }
{
    for number in 0..count {
        let name = numbered(alloc, prefix, number)?;
        if !names.contains(name.as_str()) {
            return Ok(name);
        }
    }
    numbered(alloc, prefix, count)
}
