//! The example of a type of a module.
ghost use Rattle.std.specs.Prelude.{◌≡◌, [], ◌∷◌, option_map, IfErr, IfOk};
ghost use Rattle.schema_defs.specs.Texts.{Relations};
ghost use Rattle.syntax_trees.specs.View.{ty as ty_view};
ghost use Rattle.json_value.specs.View.{kept_view};
ghost use Rattle.type_spellings.specs.Types.{type_of};
ghost use Rattle.derive_model.specs.ModuleView.{conversions_in, models_in};
ghost use Rattle.example_defs.specs.Enough.{example_of, no_texts};
ghost use Rattle.example_defs.specs.Outside.{AreInside};
ghost use Rattle.example_laws.specs.Laws.{IsExample};
ghost use Rattle.example_values.specs.Causes.{IsExampleError};
ghost use Rattle.value_models.specs.TypeView.{type_view};

use derive_model::Module;
use example_parts::Setting;
use example_values::{ExampleError, table_example};
use serde_json::Value;
use std::alloc::Global;
use syntax_trees::Ty;
use value_models::ValueType;
use value_types::value_type;

// The example of the type that a syntax type is taken for.
#[tactic(auto, using(crate::proofs::Exemplary::inside_same, crate::proofs::Exemplary::made_same, crate::proofs::Exemplary::error_same))]
fn of_type(
    alloc: Global,
    models: &Module<'_>,
    ty: &ValueType,
) -> Result<Option<Value>, ExampleError>
    ensures inside { IfOk result (λ _. AreInside (models_in models.now) (conversions_in models.now) (type_view ty.now ∷ [])) }
    ensures made { IfOk result (λ o. option_map kept_view o ≡ example_of (models_in models.now) (conversions_in models.now) no_texts (type_view ty.now)) }
    ensures outside { IfErr result (IsExampleError (models_in models.now) (conversions_in models.now) (type_view ty.now)) }
{
    let setting = Setting {
        alloc,
        containers: models.models(),
        conversions: models.conversions(),
    };
    match table_example(setting, ty) {
        Ok(made) => Ok(made),
        Err(error) => Err(error),
    }
}

/// A small JSON value that the type reads, whatever judges texts; or None, and then no small value is read. Small values
/// have i64 numbers. The value is made in the fewest rounds in which the type is built: false, 0 or the number nearest to it,
/// empty texts, lists and maps, null for options; the shortest text, or the first listed value, that a rule admits; the
/// fields that must be present; and the first variant that is ready. It is told where the type, or else the first of the
/// items that it comes to, names a native type or has to meet a rule with a pattern or a list of values that it doesn't
/// allow. It fails where memory runs out, as it does where the value would be made of more than `MOST_NODES` types, each counted
/// as often as one is made of it, or of more than 1,000 types inside one another.
#[tactic(auto, using(crate::proofs::Exemplary::is_example))]
pub fn example(alloc: Global, models: &Module<'_>, ty: &Ty) -> Result<Option<Value>, ExampleError>
    ensures example { (relations : Relations) → IfOk result (λ o. IsExample (models_in models.now) (conversions_in models.now) relations (type_of (ty_view ty.now)) (option_map kept_view o)) }
    ensures made { IfOk result (λ o. option_map kept_view o ≡ example_of (models_in models.now) (conversions_in models.now) no_texts (type_of (ty_view ty.now))) }
    ensures inside { IfOk result (λ _. AreInside (models_in models.now) (conversions_in models.now) (type_of (ty_view ty.now) ∷ [])) }
    ensures outside { IfErr result (IsExampleError (models_in models.now) (conversions_in models.now) (type_of (ty_view ty.now))) }
{
    let _table = models.models();
    match value_type(alloc, ty) {
        Ok(ty) => match of_type(alloc, models, &ty) {
            Ok(made) => Ok(made),
            Err(error) => Err(error),
        },
        Err(_) => Err(ExampleError::Memory),
    }
}
