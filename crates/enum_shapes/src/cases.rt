//! Cases of enums, and whether their names differ.
ghost use Rattle.std.specs.Prelude.{◌≡◌, IfOk, map};
ghost use Rattle.enum_defs.specs.Words.{all_differ as all_differ_in};

use schema_types::Schema;
use std::alloc::{AllocError, Global};
use std::collections::BTreeSet;

/// A variant: what it holds, if anything, and whether the object shape that it comes from refuses members that it
/// doesn't name.
#[derive(Clone, Copy)]
pub struct Case<'s> {
    pub name: &'s str,
    pub content: Option<&'s Schema>,
    pub closed: bool,
}

// Whether no two names are equal.
pub(crate) fn all_differ(alloc: Global, names: &[&str]) -> Result<bool, AllocError>
    ensures { IfOk result (λ b. b ≡ all_differ_in (map (λ n. n.now) names.now)) }
{
    let mut seen = BTreeSet::new(alloc);
    for name in names {
        if seen.contains(*name) {
            return Ok(false);
        }
        let _ = seen.insert(*name)?;
    }
    Ok(true)
}

// Whether no two cases have one name.
pub(crate) fn do_names_differ(alloc: Global, cases: &Vec<Case<'_>>) -> Result<bool, AllocError>
    ensures { IfOk result (λ b. b ≡ all_differ_in (map (λ c. c.name.now) cases.now.items)) }
{
    let mut names = Vec::new(alloc);
    for case in cases {
        names.push(case.name)?;
    }
    all_differ(alloc, names.as_slice())
}
