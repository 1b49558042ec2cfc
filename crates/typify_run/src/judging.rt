//! Values judged by the items of a report.
ghost use Rattle.std.specs.Prelude.{◌≡◌, ◌≤◌, ◌++◌, ◌∷◌, [], IfOk, IfErr, OnOk, map, true};
ghost use Rattle.syntax_trees.specs.View.{ty};
ghost use Rattle.serde_json.specs.View.{view};
ghost use Rattle.json_value.specs.View.{value_of};
ghost use Rattle.type_spellings.specs.Types.{type_of};
ghost use Rattle.schema_tree.specs.Fault.{fault_view, memory};
ghost use Rattle.schema_tree.specs.Numbers.{holds_i64_alone, are_i64};
ghost use Rattle.std.specs.List.{list_all};
ghost use Rattle.reading_defs.specs.Proper.{has_json_numbers};
ghost use Rattle.derive_model.specs.Judging.{AreSound, IsVerdict};
ghost use Rattle.derive_model.specs.ModuleView.{models_in, conversions_in};
ghost use Rattle.derive_model.specs.VerdictView.{verdict_view};
ghost use Rattle.typify_run.specs.Values.{seen};
ghost use Rattle.typify_run.specs.Verdicts.{AreVerdicts, IsUnjudged};

use crate::values::Judged;
use derive_model::{JudgeError, Module, Verdict};
use schema_tree::{Fault, Location, Texts};
use serde_json::Value;
use std::alloc::Global;
use syntax_trees::Ty;

/// The verdict on one value, whose numbers are i64, by items whose stated defaults are sound. Fails with `Memory` where memory runs out, and
/// with `Texts` at the root where the judge of texts fails.
#[tactic(auto, using(crate::proofs::Numbers::json_numbers))]
pub fn judge_value<T: Texts>(
    alloc: Global,
    models: &Module<'_>,
    root: &Ty,
    value: &Value,
    texts: &mut T,
) -> Result<Verdict, Fault>
    requires numbers { holds_i64_alone (value_of (view value.now)) ≡ true }
    requires sound { AreSound (models_in models.now) (conversions_in models.now) (T.relations texts.old) }
    ensures verdict { IfOk result (λ x. IsVerdict (models_in models.now) (conversions_in models.now) (T.relations texts.old) (type_of (ty root.now)) (value_of (view value.now)) (verdict_view x)) }
    ensures refused { IfErr result (λ f. IsUnjudged (T.faults texts.old) (T.faults texts.new) (fault_view f)) }
    ensures keeps { T.relations texts.new ≡ T.relations texts.old }
    ensures counts { T.faults texts.old ≤ T.faults texts.new }
{
    match models.judge(root, value, texts) {
        Ok(verdict) => Ok(verdict),
        Err(JudgeError::Memory) => Err(Fault::Memory),
        Err(JudgeError::Texts) => Err(Fault::Texts {
            path: Location::root(alloc),
        }),
    }
}

// One more verdict.
fn push_verdict(verdicts: &mut Vec<Verdict>, told: Verdict) -> Result<(), Fault>
    ensures pushed { OnOk result (verdicts.new.items ≡ verdicts.old.items ++ told ∷ []) }
    ensures memory { IfErr result (λ f. fault_view f ≡ memory) }
{
    match verdicts.push(told) {
        Ok(()) => Ok(()),
        Err(_) => Err(Fault::Memory),
    }
}

/// Fails where a stated default has a number that no JSON value has. No document that was read has one, though no clause says so, and want
/// of memory is the answer.
pub(crate) fn check_numbers(models: &Module<'_>) -> Result<(), Fault>
    ensures numbers { OnOk result (list_all has_json_numbers (conversions_in models.now).defaults ≡ true) }
    ensures memory { IfErr result (λ f. fault_view f ≡ memory) }
{
    if models.has_json_numbers() {
        Ok(())
    } else {
        Err(Fault::Memory)
    }
}

// The verdicts on values, in order.
fn lent_verdicts<T: Texts>(
    alloc: Global,
    models: &Module<'_>,
    root: &Ty,
    values: &[Value],
    texts: &mut T,
) -> Result<Vec<Verdict>, Fault>
    requires numbers { are_i64 (map view values.now) ≡ true }
    requires sound { AreSound (models_in models.now) (conversions_in models.now) (T.relations texts.old) }
    ensures verdicts { IfOk result (λ v. AreVerdicts (models_in models.now) (conversions_in models.now) (T.relations texts.old) (type_of (ty root.now)) (map view values.now) (map verdict_view v.items)) }
    ensures refused { IfErr result (λ f. IsUnjudged (T.faults texts.old) (T.faults texts.new) (fault_view f)) }
    ensures keeps { T.relations texts.new ≡ T.relations texts.old }
    ensures counts { T.faults texts.old ≤ T.faults texts.new }
{
    let mut verdicts = Vec::new(alloc);
    for value in values {
        let told = judge_value(alloc, models, root, value, texts)?;
        push_verdict(&mut verdicts, told)?;
    }
    Ok(verdicts)
}

// The same of values of which each is dropped once it was judged.
fn given_verdicts<T: Texts>(
    alloc: Global,
    models: &Module<'_>,
    root: &Ty,
    values: Vec<Value>,
    texts: &mut T,
) -> Result<Vec<Verdict>, Fault>
    requires numbers { are_i64 (map view values.items) ≡ true }
    requires sound { AreSound (models_in models.now) (conversions_in models.now) (T.relations texts.old) }
    ensures verdicts { IfOk result (λ v. AreVerdicts (models_in models.now) (conversions_in models.now) (T.relations texts.old) (type_of (ty root.now)) (map view values.items) (map verdict_view v.items)) }
    ensures refused { IfErr result (λ f. IsUnjudged (T.faults texts.old) (T.faults texts.new) (fault_view f)) }
    ensures keeps { T.relations texts.new ≡ T.relations texts.old }
    ensures counts { T.faults texts.old ≤ T.faults texts.new }
{
    let mut verdicts = Vec::new(alloc);
    for value in values {
        let told = judge_value(alloc, models, root, &value, texts)?;
        push_verdict(&mut verdicts, told)?;
    }
    Ok(verdicts)
}

/// The verdicts on values, in order.
pub(crate) fn verdicts<T: Texts>(
    alloc: Global,
    models: &Module<'_>,
    root: &Ty,
    values: Judged<'_>,
    texts: &mut T,
) -> Result<Vec<Verdict>, Fault>
    requires numbers { are_i64 (seen values) ≡ true }
    requires sound { AreSound (models_in models.now) (conversions_in models.now) (T.relations texts.old) }
    ensures verdicts { IfOk result (λ v. AreVerdicts (models_in models.now) (conversions_in models.now) (T.relations texts.old) (type_of (ty root.now)) (seen values.entry) (map verdict_view v.items)) }
    ensures refused { IfErr result (λ f. IsUnjudged (T.faults texts.old) (T.faults texts.new) (fault_view f)) }
    ensures keeps { T.relations texts.new ≡ T.relations texts.old }
    ensures counts { T.faults texts.old ≤ T.faults texts.new }
{
    match values {
        Judged::Lent(values) => lent_verdicts(alloc, models, root, values, texts),
        Judged::Given(values) => given_verdicts(alloc, models, root, values, texts),
    }
}
