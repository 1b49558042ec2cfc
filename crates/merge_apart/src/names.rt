//! Required names that go aside and come back.
ghost use Rattle.std.specs.Prelude.{◌≡◌, IfOk, [], map, string_bytes};
ghost use Rattle.std.specs.BTreeSet.{keys};
ghost use Rattle.merge_defs.specs.Objects.{put_names};

use schema_types::Schema;
use std::alloc::AllocError;
use std::collections::{BTreeMap, BTreeSet};

/// Required names, and those that stand aside.
#[derive(Drop)]
pub(crate) struct PartedNames {
    pub body: BTreeSet<String>,
    pub aside: BTreeSet<String>,
}

/// All names go aside; what stands aside then.
#[tactic(auto, using(crate::proofs::NameSets::turn_aside, crate::proofs::NameSets::end_aside, crate::proofs::NameSets::begin_aside))]
pub(crate) fn names_aside(
    names: BTreeSet<String>,
    aside: BTreeSet<String>,
) -> Result<BTreeSet<String>, AllocError>
    ensures { IfOk result (λ r. put_names (map string_bytes (keys r)) [] ≡ put_names (map string_bytes (keys aside)) (map string_bytes (keys names))) }
{
    let mut aside = aside;
    for name in names {
        let _ = aside.insert(name)?;
    }
    Ok(aside)
}

/// Names that stand aside come back where a property has them; all names, and what stands aside still.
pub(crate) fn names_back(
    names: BTreeSet<String>,
    aside: BTreeSet<String>,
    named: &BTreeMap<String, Schema>,
) -> Result<PartedNames, AllocError>
    ensures { IfOk result (λ r. put_names (map string_bytes (keys r.aside)) (map string_bytes (keys r.body)) ≡ put_names (map string_bytes (keys aside)) (map string_bytes (keys names))) }
{
    let mut body = names;
    let mut aside = aside;
    for (name, _) in named.iter() {
        if let Some(key) = aside.take(name.as_str()) {
            let _ = body.insert(key)?;
        }
    }
    Ok(PartedNames { body, aside })
}

/// All names: those that stand aside come back.
#[tactic(auto, using(crate::proofs::NameSets::turn_whole, crate::proofs::NameSets::end_whole))]
pub(crate) fn all_names(
    names: BTreeSet<String>,
    aside: BTreeSet<String>,
) -> Result<BTreeSet<String>, AllocError>
    ensures { IfOk result (λ r. map string_bytes (keys r) ≡ put_names (map string_bytes (keys aside)) (map string_bytes (keys names))) }
{
    let mut names = names;
    for name in aside {
        let _ = names.insert(name)?;
    }
    Ok(names)
}
