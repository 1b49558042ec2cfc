//! Names, rising, each once.
ghost use Rattle.std.specs.Prelude.{◌≡◌, ◌++◌, [], IfOk, OnOk, map, string_bytes};
ghost use Rattle.std.specs.BTreeSet.{keys};
ghost use Rattle.merge_defs.specs.Objects.{put_names};

use std::alloc::{AllocError, Global};
use std::collections::BTreeSet;

/// The names of a set, in their order, behind those before them.
#[tactic(auto, using(crate::proofs::Rising::name_pushed, crate::proofs::Rising::names_pushed))]
pub fn push_names<'n>(names: &mut Vec<&'n str>, set: &'n BTreeSet<String>) -> Result<(), AllocError>
    ensures { OnOk result (map (λ n. n.now) names.new.items ≡ map (λ n. n.now) names.old.items ++ map string_bytes (keys set.now)) }
{
    for name in set.iter() {
        names.push(name.as_str())?;
    }
    Ok(())
}

/// The names, rising, each once. Those of two lists are those of the one behind the other (`all_names`).
#[tactic(auto, using(crate::proofs::Rising::one_put))]
pub fn rising_names(alloc: Global, mut names: Vec<&str>) -> Result<BTreeSet<String>, AllocError>
    ensures { IfOk result (λ found. map string_bytes (keys found) ≡ put_names (map (λ n. n.now) names.entry.items) []) }
{
    let mut found = BTreeSet::new(alloc);
    while let Some(name) = names.pop() {
        let _ = found.insert(String::from_str(alloc, name)?)?;
    }
    Ok(found)
}
