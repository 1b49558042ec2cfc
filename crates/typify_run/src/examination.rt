//! A schema document and values examined: the items that stand for the schema, and a verdict for each value.
ghost use Rattle.std.specs.Prelude.{◌≡◌, ◌≤◌, IfOk, IfErr, OnOk, map, true, []};
ghost use Rattle.syntax_trees.specs.Item.{item_view};
ghost use Rattle.syntax_trees.specs.View.{ty};
ghost use Rattle.serde_json.specs.View.{view};
ghost use Rattle.json_value.specs.View.{value_of};
ghost use Rattle.type_spellings.specs.Types.{type_of};
ghost use Rattle.schema_tree.specs.Conversions.{conversions_view};
ghost use Rattle.schema_tree.specs.Document.{IsAccepted, view as document_seen};
ghost use Rattle.schema_tree.specs.Fault.{fault_view};
ghost use Rattle.schema_tree.specs.Numbers.{are_i64};
ghost use Rattle.document_laws.specs.Laws.{WasRead};
ghost use Rattle.reading_defs.specs.Laws.{defaults_are_sound};
ghost use Rattle.writing_laws.specs.Tables.{AllOrdered};
ghost use Rattle.derive_model.specs.Judging.{AreSound};
ghost use Rattle.typify_run.specs.Verdicts.{AreVerdicts, IsUnjudged};
ghost use Rattle.typify_run.specs.Examine.{as_it_stands, CanJudge, IsEmission, IsMadeOf, IsRefusal, IsUnreported, SettlesOnce, is_examined};
ghost use Rattle.typify_run.specs.Headline.{IsReportOf, read_of};
ghost use Rattle.typify_run.specs.Page.{ArePrintable};
ghost use Rattle.typify_run.specs.Values.{seen};
ghost use Rattle.typify_run.specs.PlainInputs.{IsPlainInput, IsRefusedPlainly};
ghost use Rattle.derive_model.specs.VerdictView.{verdict_view};

use crate::judging::{check_numbers, verdicts};
use crate::report::Report;
use crate::values::{Judged, check_judged};
use attr_parts::NoCase;
use convert_document::converted;
use derive_model::{Module, Verdict};
use distinct_names::names_differ;
use rising_names::names_of_each_rise;
use schema_tree::{Conversions, Document, Fault, Setting, Texts};
use serde_json::Value;
use std::alloc::Global;
use syntax_trees::{DeriveInput, Ty};

// The verdicts by items, whose stated defaults are sound.
fn judged<T: Texts>(
    alloc: Global,
    items: &[DeriveInput],
    conversions: &Conversions,
    root: &Ty,
    values: Judged<'_>,
    texts: &mut T,
) -> Result<Vec<Verdict>, Fault>
    requires numbers { are_i64 (seen values) ≡ true }
    requires sound { defaults_are_sound (read_of as_it_stands (map item_view items.now)) (conversions_view conversions.now) (T.relations texts.old) ≡ true }
    ensures sound { OnOk result (AreSound (read_of as_it_stands (map item_view items.now)) (conversions_view conversions.now) (T.relations texts.old)) }
    ensures verdicts { IfOk result (λ v. AreVerdicts (read_of as_it_stands (map item_view items.now)) (conversions_view conversions.now) (T.relations texts.old) (type_of (ty root.now)) (seen values.entry) (map verdict_view v.items)) }
    ensures refused { IfErr result (λ f. IsUnjudged (T.faults texts.old) (T.faults texts.new) (fault_view f)) }
    ensures keeps { T.relations texts.new ≡ T.relations texts.old }
    ensures counts { T.faults texts.old ≤ T.faults texts.new }
{
    match Module::new(alloc, items, conversions, &NoCase) {
        Ok(models) => {
            check_numbers(&models)?;
            let verdicts = verdicts(alloc, &models, root, values, texts)?;
            Ok(verdicts)
        }
        Err(_) => Err(Fault::Memory),
    }
}

// The names in stated defaults rise at each level, as those in any value that the program holds.
fn see_names(conversions: &Conversions)
    ensures { AllOrdered (conversions_view conversions.now).defaults }
{
    names_of_each_rise(&conversions.defaults);
}

// The report on a document that was read.
fn report_of<T: Texts>(
    alloc: Global,
    document: &Document,
    depth: u32,
    values: Judged<'_>,
    texts: &mut T,
) -> Result<Report, Fault>
    requires read { WasRead (document_seen document.now) }
    requires numbers { are_i64 (seen values) ≡ true }
    ensures report { IfOk result (λ r. IsMadeOf (T.relations texts.old) (document_seen document.now) depth (seen values.entry) r) }
    ensures refused { IfErr result (λ f. IsUnreported (T.relations texts.old) (document_seen document.now) depth (T.faults texts.old) (T.faults texts.new) (fault_view f)) }
    ensures keeps { T.relations texts.new ≡ T.relations texts.old }
    ensures counts { T.faults texts.old ≤ T.faults texts.new }
{
    let emitted = converted(alloc, document, depth, texts)?;
    let verdicts = judged(
        alloc,
        &emitted.items,
        &emitted.table,
        &emitted.root,
        values,
        texts,
    )?;
    see_names(&emitted.table);
    Ok(Report {
        items: emitted.items,
        conversions: emitted.table,
        root: emitted.root,
        notes: emitted.notes,
        verdicts,
    })
}

/// The items that stand for a schema document, the notes, and a verdict for each value, in order: `examine_with` under the setting `Strict`,
/// where null is a value as any other, with the refusals of that call.
pub fn examine<T: Texts>(
    alloc: Global,
    document: &Value,
    depth: u32,
    values: &[Value],
    texts: &mut T,
) -> Result<Report, Fault>
    requires { 1 ≤ depth }
    ensures report { IfOk result (λ r. IsReportOf Setting.Strict (T.relations texts.old) (value_of (view document.now)) (map view values.now) r) }
    ensures emission { IfOk result (λ r. IsEmission Setting.Strict (T.relations texts.old) depth (value_of (view document.now)) r) }
    ensures printable { IfOk result (λ r. ArePrintable (map verdict_view r.verdicts.items)) }
    ensures judges { IfOk result (λ r. CanJudge (T.relations texts.old) r) }
    ensures once { IfOk result (λ r. SettlesOnce (T.relations texts.old) r) }
    ensures examined { OnOk result (is_examined Setting.Strict (T.relations texts.old) depth (value_of (view document.now)) (map view values.now) ≡ true) }
    ensures accepted { OnOk result (IsAccepted (value_of (view document.now))) }
    ensures refused { IfErr result (λ f. IsRefusal Setting.Strict (T.relations texts.old) depth (T.faults texts.old) (T.faults texts.new) (value_of (view document.now)) (map view values.now) (fault_view f)) }
    ensures plain_unnoted { IfOk result (λ r. IsPlainInput Setting.Strict depth (value_of (view document.now)) (map view values.now) → r.notes.items ≡ []) }
    ensures plain_refused { IfErr result (λ f. IsRefusedPlainly Setting.Strict (T.relations texts.old) depth (T.faults texts.old) (T.faults texts.new) (value_of (view document.now)) (map view values.now) (fault_view f)) }
    ensures keeps { T.relations texts.new ≡ T.relations texts.old }
    ensures counts { T.faults texts.old ≤ T.faults texts.new }
{
    examine_with(alloc, document, depth, values, texts, Setting::Strict)
}

/// The items that stand for a schema document, the notes, and a verdict for each value, in order. `depth` bounds the steps from a definition
/// or the root to a schema of it. Under the setting `NullAbsent` null may stand for the absence of a property that isn't required; under `Strict`
/// it is a value as any other. Refused are a number of a value that isn't an i64 (`ValueNumber`), then the faults of `Document::read`, which don't
/// depend on the setting, then those of `converted`: the first in the order of conversion, and then the first value that a schema states, listed or as
/// its default, and that isn't read (`InvalidValue`).
/// `Texts` comes where the judge of texts failed: at the schema that asked it, or at the root where it failed at a value. Fails with `Memory`
/// where memory runs out. A document of plain rows alone (`IsPlain`) leaves no note, and is refused by these two alone.
pub fn examine_with<T: Texts>(
    alloc: Global,
    document: &Value,
    depth: u32,
    values: &[Value],
    texts: &mut T,
    setting: Setting,
) -> Result<Report, Fault>
    requires { 1 ≤ depth }
    ensures report { IfOk result (λ r. IsReportOf setting (T.relations texts.old) (value_of (view document.now)) (map view values.now) r) }
    ensures emission { IfOk result (λ r. IsEmission setting (T.relations texts.old) depth (value_of (view document.now)) r) }
    ensures printable { IfOk result (λ r. ArePrintable (map verdict_view r.verdicts.items)) }
    ensures judges { IfOk result (λ r. CanJudge (T.relations texts.old) r) }
    ensures once { IfOk result (λ r. SettlesOnce (T.relations texts.old) r) }
    ensures examined { OnOk result (is_examined setting (T.relations texts.old) depth (value_of (view document.now)) (map view values.now) ≡ true) }
    ensures accepted { OnOk result (IsAccepted (value_of (view document.now))) }
    ensures refused { IfErr result (λ f. IsRefusal setting (T.relations texts.old) depth (T.faults texts.old) (T.faults texts.new) (value_of (view document.now)) (map view values.now) (fault_view f)) }
    ensures plain_unnoted { IfOk result (λ r. IsPlainInput setting depth (value_of (view document.now)) (map view values.now) → r.notes.items ≡ []) }
    ensures plain_refused { IfErr result (λ f. IsRefusedPlainly setting (T.relations texts.old) depth (T.faults texts.old) (T.faults texts.new) (value_of (view document.now)) (map view values.now) (fault_view f)) }
    ensures keeps { T.relations texts.new ≡ T.relations texts.old }
    ensures counts { T.faults texts.old ≤ T.faults texts.new }
{
    examine_values(alloc, document, depth, Judged::Lent(values), texts, setting)
}

/// The same of values that are lent or handed over.
#[tactic(auto, using(crate::proofs::Causes::wide_refused, crate::proofs::Causes::unread_refused, crate::proofs::Causes::unreported_refused))]
pub(crate) fn examine_values<T: Texts>(
    alloc: Global,
    document: &Value,
    depth: u32,
    values: Judged<'_>,
    texts: &mut T,
    setting: Setting,
) -> Result<Report, Fault>
    requires { 1 ≤ depth }
    ensures report { IfOk result (λ r. IsReportOf setting (T.relations texts.old) (value_of (view document.now)) (seen values.entry) r) }
    ensures emission { IfOk result (λ r. IsEmission setting (T.relations texts.old) depth (value_of (view document.now)) r) }
    ensures printable { IfOk result (λ r. ArePrintable (map verdict_view r.verdicts.items)) }
    ensures judges { IfOk result (λ r. CanJudge (T.relations texts.old) r) }
    ensures once { IfOk result (λ r. SettlesOnce (T.relations texts.old) r) }
    ensures examined { OnOk result (is_examined setting (T.relations texts.old) depth (value_of (view document.now)) (seen values.entry) ≡ true) }
    ensures accepted { OnOk result (IsAccepted (value_of (view document.now))) }
    ensures refused { IfErr result (λ f. IsRefusal setting (T.relations texts.old) depth (T.faults texts.old) (T.faults texts.new) (value_of (view document.now)) (seen values.entry) (fault_view f)) }
    ensures plain_unnoted { IfOk result (λ r. IsPlainInput setting depth (value_of (view document.now)) (seen values.entry) → r.notes.items ≡ []) }
    ensures plain_refused { IfErr result (λ f. IsRefusedPlainly setting (T.relations texts.old) depth (T.faults texts.old) (T.faults texts.new) (value_of (view document.now)) (seen values.entry) (fault_view f)) }
    ensures keeps { T.relations texts.new ≡ T.relations texts.old }
    ensures counts { T.faults texts.old ≤ T.faults texts.new }
{
    names_differ(document);
    check_judged(alloc, &values)?;
    let read = Document::read_with(alloc, document, setting)?;
    let report = report_of(alloc, &read, depth, values, texts)?;
    Ok(report)
}
