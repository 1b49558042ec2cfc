//! The fewest rounds of types and of the variants of enums.
ghost use Rattle.std.specs.Prelude.{◌≡◌, ℕ, option_map, IfOk};
ghost use Rattle.conversion_table.specs.Conversions.{conversions_view};
ghost use Rattle.value_models.specs.ContainersView.{containers_in};
ghost use Rattle.value_models.specs.ContainerView.{tag_view, variants_in};
ghost use Rattle.value_models.specs.TypeView.{type_view};
ghost use Rattle.example_defs.specs.Built.{built};
ghost use Rattle.example_defs.specs.Enough.{no_texts};
ghost use Rattle.example_parts.specs.SettingView.{conversions_of, models_of};
ghost use Rattle.example_values.specs.Fewest.{are_within};
ghost use Rattle.example_values.specs.Known.{AreCounted};
ghost use Rattle.example_values.specs.Chosen.{IsChosen, chosen_view};

use crate::bodies::variants_rounds;
use crate::choosing::{Chosen, first_variant};
use crate::counting::count_rounds;
use crate::types::type_rounds;
use conversion_table::Conversions;
use example_parts::Setting;
use item_uses::Places;
use std::alloc::{AllocError, Global};
use value_models::{Tag, ValueType, Variants};

/// Items, with the fewest rounds in which each is built.
#[derive(Drop)]
pub(crate) struct Counted<'a> {
    pub(crate) alloc: Global,
    pub(crate) conversions: &'a Conversions,
    pub(crate) places: Places<'a>,
    rounds: Vec<Option<u64>>,
    ghost counted: { AreCounted (containers_in places.containers.now) (conversions_view conversions.now) rounds.items },
}

impl<'a> Counted<'a> {
    /// Counts the rounds of the items. It fails where memory runs out.
    pub(crate) fn new(setting: Setting<'a>, places: Places<'a>) -> Result<Counted<'a>, AllocError>
        requires { containers_in places.containers.now ≡ models_of setting }
        ensures models { IfOk result (λ c. containers_in c.places.containers.now ≡ models_of setting.entry) }
        ensures conversions { IfOk result (λ c. conversions_view c.conversions.now ≡ conversions_of setting.entry) }
    {
        let rounds = count_rounds(&setting, &places)?;
        Ok(Counted {
            alloc: setting.alloc,
            conversions: setting.conversions,
            places,
            rounds,
        })
    }

    /// What the items are asked by.
    pub(crate) fn setting(&self) -> Setting<'a>
        ensures models { models_of result ≡ containers_in self.now.places.containers.now }
        ensures conversions { conversions_of result ≡ conversions_view self.now.conversions.now }
    {
        Setting {
            alloc: self.alloc,
            containers: self.places.containers,
            conversions: self.conversions,
        }
    }

    /// The fewest rounds in which a type is built, or None where it is built in no number of them. It fails where they are
    /// more than a u64 holds, and where memory runs out.
    #[tactic(auto, using(crate::proofs::FirstReady::of_type))]
    pub(crate) fn of_type(&self, ty: &ValueType) -> Result<Option<u64>, AllocError>
        ensures { IfOk result (λ r. (n : ℕ) → built (containers_in self.now.places.containers.now) (conversions_view self.now.conversions.now) no_texts (type_view ty.now) n ≡ are_within r n) }
    {
        let rounds = type_rounds(&self.places, &self.rounds, ty)?;
        Ok(rounds)
    }

    /// The first variant of an enum that is ready after as many rounds as one is ready at all, and no fewer; it has a name
    /// that finds it, where one is asked.
    #[tactic(auto, using(crate::proofs::FirstReady::none_chosen, crate::proofs::FirstReady::one_chosen))]
    pub(crate) fn chosen<'b>(
        &self,
        tag: &Tag,
        variants: &'b Variants,
    ) -> Result<Option<Chosen<'b>>, AllocError>
        ensures { IfOk result (λ o. IsChosen (containers_in self.now.places.containers.now) (conversions_view self.now.conversions.now) (tag_view tag.now) (variants_in variants.now) (option_map chosen_view o)) }
    {
        let fewest = variants_rounds(&self.places, &self.rounds, tag, variants)?;
        match fewest {
            Some(count) => {
                let chosen = first_variant(&self.places, &self.rounds, count, tag, variants)?;
                Ok(chosen)
            }
            None => Ok(None),
        }
    }
}
