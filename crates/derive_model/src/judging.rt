//! Values read, written and judged by a module.
ghost use Rattle.std.specs.Prelude.{◌≡◌, ◌≤◌, true, IfOk, IfErr, IsErrOf};
ghost use Rattle.schema_defs.specs.Faults.{Rises};
ghost use Rattle.type_spellings.specs.Types.{type_of};
ghost use Rattle.reading_defs.specs.Proper.{has_json_numbers};
ghost use Rattle.reading_defs.specs.Reading.{reading};
ghost use Rattle.json_value.specs.View.{kept_view};
ghost use Rattle.syntax_trees.specs.View.{ty as ty_view};
ghost use Rattle.typed_defs.specs.Written.{written};
ghost use Rattle.value_models.specs.TypedView.{typed_view};
ghost use Rattle.value_parts.specs.Seen.{one_view};
ghost use Rattle.derive_model.specs.Judging.{AreSound, IsRead, IsUnread, IsVerdict};
ghost use Rattle.derive_model.specs.ModuleView.{conversions_in, models_in};
ghost use Rattle.derive_model.specs.VerdictView.{verdict_view};

use crate::errors::{JudgeError, ReadError};
use crate::module::Module;
use crate::verdict::{State, Verdict};
use schema_texts::{TextFault, Texts};
use serde_json::Value;
use std::alloc::AllocError;
use syntax_trees::Ty;
use value_models::Typed;
use value_parts::Outcome;
use value_types::value_type;

impl<'a> Module<'a> {
    // What reading gives.
    fn outcome<T: Texts>(
        &self,
        ty: &Ty,
        value: &Value,
        texts: &mut T,
    ) -> Result<Outcome<Typed>, TextFault>
        ensures answer { IfOk result (λ o. one_view o ≡ reading (models_in self.now) (conversions_in self.now) (T.relations texts.old) (type_of (ty_view ty.now)) (kept_view value.now)) }
        ensures failed { IsErrOf result TextFault.Failed → Rises (T.faults texts.old) (T.faults texts.new) }
        ensures keeps { T.relations texts.new ≡ T.relations texts.old }
        ensures counts { T.faults texts.old ≤ T.faults texts.new }
    {
        match value_type(self.alloc, ty) {
            Err(_) => Err(TextFault::Memory),
            Ok(ty) => value_reading::read(
                self.alloc,
                &self.table.containers,
                self.conversions,
                texts,
                &ty,
                value,
            ),
        }
    }

    /// The value read as the type (serde.rs/field-attrs, serde.rs/enum-representations). Numbers may go to the end of a u64.
    /// Where it isn't read, the place where reading stops is told.
    pub fn read<T: Texts>(&self, ty: &Ty, value: &Value, texts: &mut T) -> Result<Typed, ReadError>
        requires numbers { has_json_numbers (kept_view value.now) ≡ true }
        requires sound { AreSound (models_in self.now) (conversions_in self.now) (T.relations texts.old) }
        ensures read { IfOk result (λ x. IsRead (models_in self.now) (conversions_in self.now) (T.relations texts.old) (type_of (ty_view ty.now)) (kept_view value.now) (typed_view x)) }
        ensures unread { IfErr result (IsUnread (models_in self.now) (conversions_in self.now) (T.relations texts.old) (type_of (ty_view ty.now)) (kept_view value.now) (T.faults texts.old) (T.faults texts.new)) }
        ensures keeps { T.relations texts.new ≡ T.relations texts.old }
        ensures counts { T.faults texts.old ≤ T.faults texts.new }
    {
        match self.outcome(ty, value, texts) {
            Err(TextFault::Memory) => Err(ReadError::Memory),
            Err(TextFault::Failed) => Err(ReadError::Texts),
            Ok(Outcome::Taken(typed)) => Ok(typed),
            Ok(Outcome::Refused(path)) => Err(ReadError::Refused { path }),
            Ok(Outcome::Unsound) => Err(ReadError::Memory),
        }
    }

    /// The typed value as it is written by its type, by the serialize names and the representations.
    pub fn write(&self, ty: &Ty, typed: &Typed) -> Result<Value, AllocError>
        ensures { IfOk result (λ v. kept_view v ≡ written (models_in self.now) (type_of (ty_view ty.now)) (typed_view typed.now)) }
    {
        let ty = value_type(self.alloc, ty)?;
        let value = value_writing::write(self.alloc, &self.table.containers, typed, &ty)?;
        Ok(value)
    }

    /// The verdict on the value: taken, with the value written back as it settles, or refused where reading stops.
    #[tactic(auto, using(crate::proofs::Judged::is_taken))]
    pub fn judge<T: Texts>(
        &self,
        ty: &Ty,
        value: &Value,
        texts: &mut T,
    ) -> Result<Verdict, JudgeError>
        requires numbers { has_json_numbers (kept_view value.now) ≡ true }
        requires sound { AreSound (models_in self.now) (conversions_in self.now) (T.relations texts.old) }
        ensures verdict { IfOk result (λ x. IsVerdict (models_in self.now) (conversions_in self.now) (T.relations texts.old) (type_of (ty_view ty.now)) (kept_view value.now) (verdict_view x)) }
        ensures texts { IsErrOf result JudgeError.Texts → Rises (T.faults texts.old) (T.faults texts.new) }
        ensures keeps { T.relations texts.new ≡ T.relations texts.old }
        ensures counts { T.faults texts.old ≤ T.faults texts.new }
    {
        match self.read(ty, value, texts) {
            Err(ReadError::Memory) => Err(JudgeError::Memory),
            Err(ReadError::Texts) => Err(JudgeError::Texts),
            Err(ReadError::Refused { path }) => Ok(Verdict {
                state: State::Refused { path },
            }),
            Ok(typed) => match self.write(ty, &typed) {
                Ok(written) => Ok(Verdict {
                    state: State::Taken { written },
                }),
                Err(_) => Err(JudgeError::Memory),
            },
        }
    }
}
