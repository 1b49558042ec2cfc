//! Whether the stated defaults of a module are sound.
ghost use Rattle.std.specs.Prelude.{◌≡◌, ◌≤◌, map, IfOk, IsErrOf};
ghost use Rattle.std.specs.List.{list_all};
ghost use Rattle.schema_defs.specs.Faults.{Rises};
ghost use Rattle.reading_defs.specs.Laws.{body_is_sound as body_sound, defaults_are_sound as defaults_sound, fields_are_sound as fields_sound, is_sound as default_sound};
ghost use Rattle.reading_defs.specs.Proper.{has_json_numbers as value_has};
ghost use Rattle.json_value.specs.View.{kept_view};
ghost use Rattle.value_models.specs.ContainerView.{body_view, containers_view};
ghost use Rattle.value_models.specs.FieldView.{default_view, fields_view};
ghost use Rattle.value_models.specs.TypeView.{type_view};
ghost use Rattle.value_models.specs.VariantView.{variants_view};
ghost use Rattle.derive_model.specs.Judging.{are_sound};
ghost use Rattle.derive_model.specs.ModuleView.{conversions_in, models_in};

use crate::errors::JudgeError;
use crate::module::Module;
use json_numbers::has_json_numbers;
use schema_texts::{TextFault, Texts};
use serde_json::Value;
use value_models::{Body, Container, Field, FieldDefault, Variant};
use value_reading::reads_default;

#[tactic(auto, using(crate::proofs::SoundParts::one_passes, crate::proofs::SoundParts::one_fails, crate::proofs::SoundParts::all_pass))]
fn have_json_numbers(values: &[Value]) -> bool
    ensures { result ≡ list_all value_has (map kept_view values.now) }
{
    for value in values {
        if !has_json_numbers(value) {
            return false;
        }
    }
    true
}

impl<'a> Module<'a> {
    // A stated default is sound where the type of its field reads it.
    fn field_is_sound<T: Texts>(&self, texts: &mut T, field: &Field) -> Result<bool, TextFault>
        ensures answer { IfOk result (λ b. b ≡ default_sound (models_in self.now) (conversions_in self.now) (T.relations texts.old) (type_view field.now.field_type) (default_view field.now.default)) }
        ensures failed { IsErrOf result TextFault.Failed → Rises (T.faults texts.old) (T.faults texts.new) }
        ensures keeps { T.relations texts.new ≡ T.relations texts.old }
        ensures counts { T.faults texts.old ≤ T.faults texts.new }
    {
        match field.default {
            FieldDefault::Stated(place) => {
                let sound = reads_default(
                    self.alloc,
                    &self.table.containers,
                    self.conversions,
                    texts,
                    place,
                    &field.field_type,
                )?;
                Ok(sound)
            }
            FieldDefault::Nothing | FieldDefault::Own => Ok(true),
        }
    }

    fn fields_are_sound<T: Texts>(&self, texts: &mut T, fields: &[Field]) -> Result<bool, TextFault>
        ensures answer { IfOk result (λ b. b ≡ fields_sound (models_in self.now) (conversions_in self.now) (T.relations texts.old) (fields_view fields.now)) }
        ensures failed { IsErrOf result TextFault.Failed → Rises (T.faults texts.old) (T.faults texts.new) }
        ensures keeps { T.relations texts.new ≡ T.relations texts.old }
        ensures counts { T.faults texts.old ≤ T.faults texts.new }
    {
        for field in fields {
            if !self.field_is_sound(texts, field)? {
                return Ok(false);
            }
        }
        Ok(true)
    }

    fn variants_are_sound<T: Texts>(
        &self,
        texts: &mut T,
        variants: &[Variant],
    ) -> Result<bool, TextFault>
        ensures answer { IfOk result (λ b. b ≡ list_all (λ w. fields_sound (models_in self.now) (conversions_in self.now) (T.relations texts.old) w.fields) (variants_view variants.now)) }
        ensures failed { IsErrOf result TextFault.Failed → Rises (T.faults texts.old) (T.faults texts.new) }
        ensures keeps { T.relations texts.new ≡ T.relations texts.old }
        ensures counts { T.faults texts.old ≤ T.faults texts.new }
    {
        for variant in variants {
            if !self.fields_are_sound(texts, variant.fields.fields())? {
                return Ok(false);
            }
        }
        Ok(true)
    }

    fn body_is_sound<T: Texts>(&self, texts: &mut T, body: &Body) -> Result<bool, TextFault>
        ensures answer { IfOk result (λ b. b ≡ body_sound (models_in self.now) (conversions_in self.now) (T.relations texts.old) (body_view body.now)) }
        ensures failed { IsErrOf result TextFault.Failed → Rises (T.faults texts.old) (T.faults texts.new) }
        ensures keeps { T.relations texts.new ≡ T.relations texts.old }
        ensures counts { T.faults texts.old ≤ T.faults texts.new }
    {
        match body {
            Body::Struct(_, fields) => {
                let sound = self.fields_are_sound(texts, fields.fields())?;
                Ok(sound)
            }
            Body::Enum(_, variants) => {
                let sound = self.variants_are_sound(texts, variants.variants())?;
                Ok(sound)
            }
        }
    }

    fn containers_are_sound<T: Texts>(
        &self,
        texts: &mut T,
        containers: &[Container],
    ) -> Result<bool, TextFault>
        ensures answer { IfOk result (λ b. b ≡ list_all (λ m. body_sound (models_in self.now) (conversions_in self.now) (T.relations texts.old) m.body) (containers_view containers.now)) }
        ensures failed { IsErrOf result TextFault.Failed → Rises (T.faults texts.old) (T.faults texts.new) }
        ensures keeps { T.relations texts.new ≡ T.relations texts.old }
        ensures counts { T.faults texts.old ≤ T.faults texts.new }
    {
        for container in containers {
            if !self.body_is_sound(texts, &container.body)? {
                return Ok(false);
            }
        }
        Ok(true)
    }

    // The stated defaults of every container, whatever their numbers.
    fn models_are_sound<T: Texts>(&self, texts: &mut T) -> Result<bool, TextFault>
        ensures answer { IfOk result (λ b. b ≡ defaults_sound (models_in self.now) (conversions_in self.now) (T.relations texts.old)) }
        ensures failed { IsErrOf result TextFault.Failed → Rises (T.faults texts.old) (T.faults texts.new) }
        ensures keeps { T.relations texts.new ≡ T.relations texts.old }
        ensures counts { T.faults texts.old ≤ T.faults texts.new }
    {
        let sound = self.containers_are_sound(texts, self.table.containers.containers())?;
        Ok(sound)
    }

    /// Whether the stated defaults of the module have the numbers that JSON values have: whole ones, from the least i64 to the greatest
    /// u64. It takes no memory.
    pub fn has_json_numbers(&self) -> bool
        ensures { result ≡ list_all value_has (conversions_in self.now).defaults }
    {
        have_json_numbers(&self.conversions.defaults)
    }

    /// Whether the stated defaults of the module are sound, which `read` and `judge` ask: each is read by the type of its
    /// field, without being met inside itself, and each value of the table has the numbers that JSON values have
    /// (serde.rs/field-attrs). It fails where memory runs out, or where the judge of texts failed.
    #[tactic(auto, using(crate::proofs::Tested::other_numbers, crate::proofs::Tested::json_numbers_there))]
    pub fn is_sound<T: Texts>(&self, texts: &mut T) -> Result<bool, JudgeError>
        ensures sound { IfOk result (λ b. b ≡ are_sound (models_in self.now) (conversions_in self.now) (T.relations texts.old)) }
        ensures texts { IsErrOf result JudgeError.Texts → Rises (T.faults texts.old) (T.faults texts.new) }
        ensures keeps { T.relations texts.new ≡ T.relations texts.old }
        ensures counts { T.faults texts.old ≤ T.faults texts.new }
    {
        if !self.has_json_numbers() {
            return Ok(false);
        }
        match self.models_are_sound(texts) {
            Ok(sound) => Ok(sound),
            Err(TextFault::Memory) => Err(JudgeError::Memory),
            Err(TextFault::Failed) => Err(JudgeError::Texts),
        }
    }
}
