//! The example of a type of a module, by a judge of texts.
ghost use Rattle.std.specs.Prelude.{◌≡◌, ◌≤◌, true, option_map, IfErr, IfOk, IfSome, IsTrue};
ghost use Rattle.syntax_trees.specs.View.{ty as ty_view};
ghost use Rattle.json_value.specs.View.{kept_view};
ghost use Rattle.type_spellings.specs.Types.{type_of};
ghost use Rattle.model_defs.specs.Reads.{reads};
ghost use Rattle.derive_model.specs.Judging.{AreSound};
ghost use Rattle.derive_model.specs.ModuleView.{conversions_in, models_in};
ghost use Rattle.example_values.specs.Causes.{IsExampleError};
ghost use Rattle.example_tries.specs.Tried.{IsExampleBy};

use crate::making::{Tries, first_made};
use crate::ruled::ruled_values;
use derive_model::Module;
use json_numbers::has_json_numbers;
use model_example::{ExampleError, example};
use schema_texts::Texts;
use serde_json::Value;
use std::alloc::Global;
use syntax_trees::Ty;
use value_types::value_type;

// A value that the type may read: nothing is said of it.
fn candidate<T: Texts>(
    alloc: Global,
    models: &Module<'_>,
    ty: &Ty,
    listed: &[String],
    texts: &mut T,
) -> Option<Value>
    ensures keeps { T.relations texts.new ≡ T.relations texts.old }
    ensures counts { T.faults texts.old ≤ T.faults texts.new }
{
    let containers = models.models();
    let constraints = &models.conversions().constraints;
    let ruled = ruled_values(alloc, containers, constraints, listed, texts)?;
    let ty = value_type(alloc, ty).ok()?;
    let tries = Tries {
        alloc,
        containers,
        ruled: &ruled,
    };
    first_made(&tries, &ty, &[2, 4, 8, 16, 32, 64, 128, 256])
}

// Whether the module takes the value. It isn't known where memory runs out, or the judge of texts fails.
fn takes<T: Texts>(models: &Module<'_>, ty: &Ty, value: &Value, texts: &mut T) -> bool
    requires sound { AreSound (models_in models.now) (conversions_in models.now) (T.relations texts.old) }
    ensures read { IsTrue result → reads (models_in models.now) (conversions_in models.now) (T.relations texts.old) (type_of (ty_view ty.now)) (kept_view value.now) ≡ true }
    ensures keeps { T.relations texts.new ≡ T.relations texts.old }
    ensures counts { T.faults texts.old ≤ T.faults texts.new }
{
    if !has_json_numbers(value) {
        return false;
    }
    match models.judge(ty, value, texts) {
        Ok(verdict) => verdict.taken().is_some(),
        Err(_) => false,
    }
}

// The candidate, where the module takes it.
fn taken_candidate<T: Texts>(
    alloc: Global,
    models: &Module<'_>,
    ty: &Ty,
    listed: &[String],
    texts: &mut T,
) -> Option<Value>
    requires sound { AreSound (models_in models.now) (conversions_in models.now) (T.relations texts.old) }
    ensures read { IfSome result (λ v. reads (models_in models.now) (conversions_in models.now) (T.relations texts.old) (type_of (ty_view ty.now)) (kept_view v) ≡ true) }
    ensures keeps { T.relations texts.new ≡ T.relations texts.old }
    ensures counts { T.faults texts.old ≤ T.faults texts.new }
{
    let value = candidate(alloc, models, ty, listed, texts)?;
    if !takes(models, ty, &value, texts) {
        return None;
    }
    Some(value)
}

fn is_outside(error: &ExampleError) -> bool {
    match error {
        ExampleError::Outside { .. } => true,
        ExampleError::Memory => false,
    }
}

/// The example of the type; where that isn't told for a native type or a rule, a value that the type reads by this judge of
/// texts, if one is found. A native type has one text of its format there, and an item that has to meet a rule the first
/// allowed value, or the first text that meets it: of `listed`, and then of texts of one letter. None says that no small value
/// is read, as of `example`. Why it isn't told is what `example` tells, also where no value is found, memory runs out
/// meanwhile, or the judge of texts fails.
pub fn example_by<T: Texts>(
    alloc: Global,
    models: &Module<'_>,
    ty: &Ty,
    listed: &[String],
    texts: &mut T,
) -> Result<Option<Value>, ExampleError>
    requires sound { AreSound (models_in models.now) (conversions_in models.now) (T.relations texts.old) }
    ensures example { IfOk result (λ o. IsExampleBy (models_in models.now) (conversions_in models.now) (T.relations texts.old) (type_of (ty_view ty.now)) (option_map kept_view o)) }
    ensures outside { IfErr result (IsExampleError (models_in models.now) (conversions_in models.now) (type_of (ty_view ty.now))) }
    ensures keeps { T.relations texts.new ≡ T.relations texts.old }
    ensures counts { T.faults texts.old ≤ T.faults texts.new }
{
    match example(alloc, models, ty) {
        Ok(made) => Ok(made),
        Err(error) => {
            if !is_outside(&error) {
                return Err(error);
            }
            match taken_candidate(alloc, models, ty, listed, texts) {
                Some(value) => Ok(Some(value)),
                None => Err(error),
            }
        }
    }
}
