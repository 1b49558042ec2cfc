//! The example of a type, by tables of items.
ghost use Rattle.std.specs.Prelude.{◌≡◌, [], ◌∷◌, option_map, IfErr, IfOk};
ghost use Rattle.json_value.specs.View.{kept_view};
ghost use Rattle.example_defs.specs.Enough.{example_of, no_texts};
ghost use Rattle.example_defs.specs.Outside.{AreInside};
ghost use Rattle.example_parts.specs.SettingView.{conversions_of, models_of};
ghost use Rattle.value_models.specs.ContainersView.{containers_in};
ghost use Rattle.value_models.specs.TypeView.{type_view};
ghost use Rattle.example_values.specs.Causes.{AnswersAs, IsExampleError, IsAttempt};

use crate::counted::Counted;
use crate::errors::ExampleError;
use crate::making::make;
use crate::outside::outside;
use example_parts::Setting;
use item_uses::Places;
use serde_json::Value;
use std::alloc::AllocError;
use value_models::ValueType;

/// What was made of a type, or why nothing is.
#[derive(Drop)]
pub(crate) enum Attempt {
    Made(Option<Value>),
    Outside(Option<u32>),
}

// The example of a type that is built in some number of rounds.
#[tactic(auto, using(crate::proofs::Answered::none_made, crate::proofs::Answered::one_made))]
fn made_of<'a>(
    setting: Setting<'a>,
    places: Places<'a>,
    ty: &ValueType,
) -> Result<Option<Value>, AllocError>
    requires same { containers_in places.containers.now ≡ models_of setting }
    ensures { IfOk result (λ o. option_map kept_view o ≡ example_of (models_of setting.entry) (conversions_of setting.entry) no_texts (type_view ty.now)) }
{
    let counted = Counted::new(setting, places)?;
    let rounds = counted.of_type(ty)?;
    match rounds {
        Some(_) => {
            let value = make(&counted, ty)?;
            Ok(Some(value))
        }
        None => Ok(None),
    }
}

fn tried<'a>(setting: Setting<'a>, ty: &ValueType) -> Result<Attempt, AllocError>
    ensures { IfOk result (IsAttempt (models_of setting.entry) (conversions_of setting.entry) (type_view ty.now)) }
{
    let places = Places::new(setting.alloc, setting.containers)?;
    let cause = outside(&setting, &places, ty)?;
    match cause {
        Some(item) => Ok(Attempt::Outside(item)),
        None => {
            let made = made_of(setting, places, ty)?;
            Ok(Attempt::Made(made))
        }
    }
}

// What was tried, as it is answered.
fn answer_of(tried: Attempt) -> Result<Option<Value>, ExampleError>
    ensures { AnswersAs tried result }
{
    match tried {
        Attempt::Made(made) => Ok(made),
        Attempt::Outside(item) => Err(ExampleError::Outside { item }),
    }
}

/// A small value that the type reads, made in the fewest rounds in which the type is built, or None where it is built in no
/// number of rounds. Of a type of which none is made the first cause is told. It fails where memory runs out, as it does
/// where the value would be made of more than `MOST_NODES` types.
pub fn table_example(setting: Setting<'_>, ty: &ValueType) -> Result<Option<Value>, ExampleError>
    ensures inside { IfOk result (λ _. AreInside (models_of setting.entry) (conversions_of setting.entry) (type_view ty.now ∷ [])) }
    ensures made { IfOk result (λ o. option_map kept_view o ≡ example_of (models_of setting.entry) (conversions_of setting.entry) no_texts (type_view ty.now)) }
    ensures outside { IfErr result (IsExampleError (models_of setting.entry) (conversions_of setting.entry) (type_view ty.now)) }
{
    match tried(setting, ty) {
        Ok(tried) => answer_of(tried),
        Err(_) => Err(ExampleError::Memory),
    }
}
