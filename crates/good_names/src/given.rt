//! Names that are given one after another: to items, or within one container.
ghost use Rattle.std.specs.Prelude.{◌≡◌, ◌||◌, ◌&&◌, not, ◌++◌, ◌≤◌, ◌<◌, ◌^◌, ◌+◌, ℕ, List, [], ◌∷◌, Bool, IfOk, OnOk, true, false, bytes_eq, codes, string_bytes, option_map};
ghost use Rattle.std.specs.BTreeSet.{contains_text};
ghost use Rattle.naming_defs.specs.Names.{Names, numbered, as_value, taking};
ghost use Rattle.good_names.specs.Given.{is_used, has_value as has_value_by, kept_off, Stands, Does, DoesWithin, name_given, name_given_by, number_given, item_given, bound_given};

use crate::kept::{is_bound_name, is_good_name, is_in_prelude, is_item_name};
use free_names::{numbered, take};
use std::alloc::{AllocError, Global};
use std::collections::BTreeSet;

/// Names that are given by one prefix: those that were given, those that are wanted beside them, and a number
/// below which none of the prefix is free. Of names by another prefix, and after an error, nothing is said.
/// The name of an item that stands for a value is among those that were given with a parenthesis before it, too.
#[derive(Drop)]
pub struct GivenNames {
    given: BTreeSet<String>,
    beside: BTreeSet<String>,
    next: usize,
}

// The name that says that an item of the name stands for a value.
fn value_name(alloc: Global, name: &str) -> Result<String, AllocError>
    ensures { IfOk result (λ s. string_bytes s ≡ as_value name.now) }
{
    let mut value = String::from_str(alloc, "(")?;
    value.push_str(name)?;
    Ok(value)
}

// Whether the name is that of a value of those items.
fn is_kept_off(alloc: Global, items: Option<&GivenNames>, name: &str) -> Result<bool, AllocError>
    ensures { IfOk result (λ b. b ≡ kept_off (option_map (λ o. o.now) items.entry) name.now) }
{
    match items {
        None => Ok(false),
        Some(items) => {
            let has = items.has_value(alloc, name)?;
            Ok(has)
        }
    }
}

impl GivenNames {
    /// No name is given, and none is wanted.
    #[tactic(auto, using(crate::proofs::First::stands_new))]
    pub fn new(alloc: Global) -> GivenNames
        ensures { (prefix : List ℕ) → Stands result prefix [] [] }
    {
        GivenNames {
            given: BTreeSet::new(alloc),
            beside: BTreeSet::new(alloc),
            next: 0,
        }
    }

    /// One more name is wanted beside those that are given.
    #[tactic(auto, using(crate::proofs::First::stands_wanted))]
    pub fn want(&mut self, alloc: Global, name: &str) -> Result<(), AllocError>
        ensures { OnOk result ((prefix : List ℕ) (given beside : Names) → Stands self.old prefix given beside → Stands self.new prefix given (beside ++ name.now ∷ [])) }
    {
        take(&mut self.beside, alloc, name)?;
        Ok(())
    }

    /// The name is given as it stands.
    #[tactic(auto, using(crate::proofs::First::stands_taken))]
    pub fn take(&mut self, alloc: Global, name: &str) -> Result<(), AllocError>
        ensures { OnOk result ((prefix : List ℕ) (given beside : Names) → Stands self.old prefix given beside → Stands self.new prefix (name.now ∷ given) beside) }
    {
        take(&mut self.given, alloc, name)?;
        Ok(())
    }

    // Whether an item that stands for a value has the name, or the prelude.
    fn has_value(&self, alloc: Global, name: &str) -> Result<bool, AllocError>
        ensures { IfOk result (λ b. b ≡ has_value_by self.now name.now) }
    {
        if is_in_prelude(name) {
            return Ok(true);
        }
        let value = value_name(alloc, name)?;
        Ok(self.given.contains(value.as_str()))
    }

    fn uses(
        &self,
        alloc: Global,
        items: Option<&GivenNames>,
        name: &str,
    ) -> Result<bool, AllocError>
        ensures { IfOk result (λ b. b ≡ (kept_off (option_map (λ o. o.now) items.entry) name.now || is_used self.now name.now)) }
    {
        if is_kept_off(alloc, items, name)? {
            return Ok(true);
        }
        if self.given.contains(name) {
            return Ok(true);
        }
        Ok(self.beside.contains(name))
    }

    // The first number from the next one on that gives a free name, with that name.
    fn first_free(
        &self,
        alloc: Global,
        items: Option<&GivenNames>,
        prefix: &str,
    ) -> Result<(String, usize), AllocError>
        ensures name { IfOk result (λ p. string_bytes p.0 ≡ numbered prefix.now p.1) }
        ensures small { IfOk result (λ p. p.1 + 1 < 2 ^ 64) }
        ensures free { IfOk result (λ p. (kept_off (option_map (λ o. o.now) items.entry) (numbered prefix.now p.1) || is_used self.now (numbered prefix.now p.1)) ≡ false) }
        ensures below { IfOk result (λ p. (i : ℕ) → self.now.next ≤ i → i < p.1 → (kept_off (option_map (λ o. o.now) items.entry) (numbered prefix.now i) || is_used self.now (numbered prefix.now i)) ≡ true) }
    {
        for number in self.next..usize::MAX {
            let name = numbered(alloc, prefix, number)?;
            if !self.uses(alloc, items, &name)? {
                return Ok((name, number));
            }
        }
        Err(AllocError)
    }

    // Gives the prefix with the first number that makes a name which is neither given, wanted nor kept off.
    #[tactic(auto, using(crate::proofs::First::number_is_given))]
    fn number_by(
        &mut self,
        alloc: Global,
        items: Option<&GivenNames>,
        prefix: &str,
    ) -> Result<String, AllocError>
        ensures { IfOk result (λ s. DoesWithin (kept_off (option_map (λ o. o.now) items.entry)) prefix.now self.old self.new (string_bytes s) (number_given prefix.now)) }
    {
        let (name, number) = self.first_free(alloc, items, prefix)?;
        take(&mut self.given, alloc, &name)?;
        self.next = number + 1;
        Ok(name)
    }

    // Whether a name that fits, or doesn't, may be given.
    fn may_give(
        &self,
        alloc: Global,
        items: Option<&GivenNames>,
        name: &str,
        fits: bool,
    ) -> Result<bool, AllocError>
        ensures { IfOk result (λ b. b ≡ (fits && not (kept_off (option_map (λ o. o.now) items.entry) name.now || contains_text self.now.given name.now))) }
    {
        if !fits {
            return Ok(false);
        }
        if is_kept_off(alloc, items, name)? {
            return Ok(false);
        }
        Ok(!self.given.contains(name))
    }

    // Gives the name, where it fits and is neither given nor kept off, or else the prefix with a number.
    #[tactic(auto, using(crate::proofs::First::name_is_given, crate::proofs::First::number_for_name))]
    fn give_by(
        &mut self,
        alloc: Global,
        items: Option<&GivenNames>,
        prefix: &str,
        wanted: &str,
        fits: bool,
    ) -> Result<String, AllocError>
        ensures { IfOk result (λ s. (g : List ℕ → Bool) → g wanted.now ≡ fits → DoesWithin (kept_off (option_map (λ o. o.now) items.entry)) prefix.now self.old self.new (string_bytes s) (name_given_by g prefix.now wanted.now)) }
    {
        if self.may_give(alloc, items, wanted, fits)? {
            take(&mut self.given, alloc, wanted)?;
            return Ok(String::from_str(alloc, wanted)?);
        }
        let name = self.number_by(alloc, items, prefix)?;
        Ok(name)
    }

    // An item's name is that of a value, too.
    #[tactic(auto, using(crate::proofs::First::no_value_taken, crate::proofs::First::value_taken))]
    fn take_value(&mut self, alloc: Global, name: &str, is_value: bool) -> Result<(), AllocError>
        ensures { OnOk result ((prefix : List ℕ) (given beside : Names) → Stands self.old prefix (name.now ∷ given) beside → Stands self.new prefix (taking is_value name.now given) beside) }
    {
        if !is_value {
            return Ok(());
        }
        let value = value_name(alloc, name)?;
        self.take(alloc, &value)?;
        Ok(())
    }

    /// Gives the prefix with the first number from 0 that makes a name which is neither given nor wanted.
    pub fn give_number(&mut self, alloc: Global, prefix: &str) -> Result<String, AllocError>
        ensures { IfOk result (λ s. Does prefix.now self.old self.new (string_bytes s) (number_given prefix.now)) }
    {
        let name = self.number_by(alloc, None, prefix)?;
        Ok(name)
    }

    /// Gives the name, where it is good and not given yet, or else the prefix with a number.
    pub fn give(&mut self, alloc: Global, prefix: &str, wanted: &str) -> Result<String, AllocError>
        ensures { IfOk result (λ s. Does prefix.now self.old self.new (string_bytes s) (name_given prefix.now wanted.now)) }
    {
        let good = is_good_name(alloc, wanted)?;
        let name = self.give_by(alloc, None, prefix, wanted, good)?;
        Ok(name)
    }

    /// Gives an item the name, where an item keeps it and it isn't given yet, or else `Type` with a number. The item may stand for a
    /// value, whose name no field of a variant has from then on.
    pub fn give_item(
        &mut self,
        alloc: Global,
        wanted: &str,
        is_value: bool,
    ) -> Result<String, AllocError>
        ensures { IfOk result (λ s. Does (codes "Type") self.old self.new (string_bytes s) (item_given is_value wanted.now)) }
    {
        let good = is_item_name(alloc, wanted)?;
        let name = self.give_by(alloc, None, "Type", wanted, good)?;
        self.take_value(alloc, &name, is_value)?;
        Ok(name)
    }

    /// Gives a field of a variant the name, where such a field keeps it, it isn't given yet and no value has it among the items, or
    /// else `field` with a number.
    pub fn give_within(
        &mut self,
        alloc: Global,
        items: &GivenNames,
        wanted: &str,
    ) -> Result<String, AllocError>
        ensures { IfOk result (λ s. DoesWithin (has_value_by items.now) (codes "field") self.old self.new (string_bytes s) (bound_given wanted.now)) }
    {
        let good = is_bound_name(alloc, wanted)?;
        let name = self.give_by(alloc, Some(items), "field", wanted, good)?;
        Ok(name)
    }
}
