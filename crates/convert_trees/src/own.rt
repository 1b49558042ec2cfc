//! The faults of a schema itself.
ghost use Rattle.std.specs.Prelude.{◌≡◌, ◌≤◌, ◌⊎◌, ℕ, [], ◌∷◌, not, nat_le, IfErr, OnOk, Some};
ghost use Rattle.std.specs.List.{list_all};
ghost use Rattle.schema_defs.specs.Texts.{Relations};
ghost use Rattle.schema_defs.specs.Schema.{Document as DocumentOf};
ghost use Rattle.schema_tree.specs.Fault.{fault_view, memory};
ghost use Rattle.convert_defs.specs.Faults.{fault_if, finding_faults, row_faults};
ghost use Rattle.convert_defs.specs.Row.{bad_pattern as bad_pattern_cause, places as places_cause, plainly, refused_row};
ghost use Rattle.convert_defs.specs.Table.{reference_row};
ghost use Rattle.row_findings.specs.Given.{source_view};
ghost use Rattle.row_findings.specs.View.{cause_view, finding_view, patterns_view, row_view};
ghost use Rattle.merged_rows.specs.Starts.{path_by};
ghost use Rattle.convert_trees.specs.Told.{told_cause, RefusesBy, RowRefuses};

use crate::faults::{refused_fault, text_fault};
use crate::scope::Scope;
use merged_rows::location_of;
use row_findings::{Cause, Finding, Row, Source, Steps};
use schema_tree::{Fault, InvalidKind, Texts};
use tree_parts::{asked_patterns, target_named};

// Each pattern is one.
#[tactic(auto, using(crate::proofs::Ends::no_answer_by, crate::proofs::Ends::want_by))]
fn check_patterns<T: Texts>(
    scope: &Scope<'_, '_>,
    trail: &Vec<Steps<'_>>,
    source: &Source<'_>,
    finding: &Finding<'_>,
    texts: &mut T,
) -> Result<(), Fault>
    ensures fine { OnOk result (fault_if (not (list_all (T.relations texts.old).is_pattern (patterns_view finding.now.patterns))) bad_pattern_cause ≡ []) }
    ensures refused { IfErr result (λ f. RefusesBy (path_by scope.now.start.now trail.now.items) (source_view source.now) (finding_view (T.relations texts.old) finding.now) (T.faults texts.old) (T.faults texts.new) (fault_if (not (list_all (T.relations texts.old).is_pattern (patterns_view finding.now.patterns))) bad_pattern_cause) (fault_view f)) }
    ensures keeps { T.relations texts.new ≡ T.relations texts.old }
    ensures counts { T.faults texts.old ≤ T.faults texts.new }
{
    match asked_patterns(&finding.patterns, texts) {
        Ok(true) => Ok(()),
        Ok(false) => Err(bad_pattern(scope, trail, source, finding)),
        Err(fault) => Err(text_fault(scope, trail, fault)),
    }
}

#[tactic(auto, using(crate::proofs::Ends::told_by, crate::proofs::Ends::want_by))]
fn bad_pattern(
    scope: &Scope<'_, '_>,
    trail: &Vec<Steps<'_>>,
    source: &Source<'_>,
    finding: &Finding<'_>,
) -> Fault
    ensures { (r : Relations) (old : ℕ) (new : ℕ) → RefusesBy (path_by scope.now.start.now trail.now.items) (source_view source.now) (finding_view r finding.now) old new (bad_pattern_cause ∷ []) (fault_view result) }
{
    let _ = source;
    let _ = finding;
    match location_of(scope.alloc, scope.start, trail) {
        Ok(path) => Fault::InvalidSchema {
            path,
            kind: InvalidKind::Pattern,
        },
        Err(_) => Fault::Memory,
    }
}

// No list has more places than walks have steps.
fn check_places(
    scope: &Scope<'_, '_>,
    trail: &Vec<Steps<'_>>,
    source: &Source<'_>,
    finding: &Finding<'_>,
) -> Result<(), Fault>
    ensures fine { OnOk result (fault_if (not (nat_le finding.now.places scope.now.depth)) places_cause ≡ []) }
    ensures refused { IfErr result (λ f. (r : Relations) (old : ℕ) (new : ℕ) → RefusesBy (path_by scope.now.start.now trail.now.items) (source_view source.now) (finding_view r finding.now) old new (fault_if (not (nat_le finding.now.places scope.now.depth)) places_cause) (fault_view f)) }
{
    if finding.places <= scope.depth {
        return Ok(());
    }
    Err(many_places(scope, trail, source, finding))
}

#[tactic(auto, using(crate::proofs::Ends::told_by, crate::proofs::Ends::want_by))]
fn many_places(
    scope: &Scope<'_, '_>,
    trail: &Vec<Steps<'_>>,
    source: &Source<'_>,
    finding: &Finding<'_>,
) -> Fault
    ensures { (r : Relations) (old : ℕ) (new : ℕ) → RefusesBy (path_by scope.now.start.now trail.now.items) (source_view source.now) (finding_view r finding.now) old new (places_cause ∷ []) (fault_view result) }
{
    let _ = source;
    match location_of(scope.alloc, scope.start, trail) {
        Ok(path) => Fault::Places {
            path,
            places: finding.places as u64,
        },
        Err(_) => Fault::Memory,
    }
}

fn refused(
    scope: &Scope<'_, '_>,
    trail: &Vec<Steps<'_>>,
    source: &Source<'_>,
    cause: Cause,
) -> Fault
    ensures { (fault_view result ≡ memory) ⊎ (fault_view result ≡ told_cause (path_by scope.now.start.now trail.now.items) (source_view source.now) (plainly (refused_row (cause_view cause))) (cause_view cause)) }
{
    match location_of(scope.alloc, scope.start, trail) {
        Ok(path) => refused_fault(path, source, cause),
        Err(_) => Fault::Memory,
    }
}

// A reference leads somewhere.
#[tactic(auto, using(crate::proofs::Causes::led, crate::proofs::Causes::reference_refused))]
fn check_reference(
    scope: &Scope<'_, '_>,
    trail: &Vec<Steps<'_>>,
    source: &Source<'_>,
    reference: &str,
) -> Result<(), Fault>
    ensures fine { OnOk result ((r : Relations) (d : DocumentOf) (n : ℕ) → row_faults r d n (reference_row (Some reference.now)) ≡ []) }
    ensures refused { IfErr result (λ f. RowRefuses (path_by scope.now.start.now trail.now.items) (source_view source.now) (reference_row (Some reference.now)) (fault_view f)) }
{
    match target_named(scope.alloc, reference) {
        Ok(Some(_)) => Ok(()),
        Ok(None) => Err(refused(scope, trail, source, Cause::Mix)),
        Err(_) => Err(Fault::Memory),
    }
}

#[tactic(auto, using(crate::proofs::Causes::row_refused))]
fn check_row(
    scope: &Scope<'_, '_>,
    trail: &Vec<Steps<'_>>,
    source: &Source<'_>,
    row: &Row<'_>,
) -> Result<(), Fault>
    ensures fine { OnOk result ((r : Relations) (d : DocumentOf) (n : ℕ) → row_faults r d n (row_view r row.now) ≡ []) }
    ensures refused { IfErr result (λ f. (r : Relations) → RowRefuses (path_by scope.now.start.now trail.now.items) (source_view source.now) (row_view r row.now) (fault_view f)) }
{
    match row {
        Row::Refused(cause) => Err(refused(scope, trail, source, *cause)),
        Row::Merged(_) => Err(Fault::Memory),
        Row::Reference(reference) => {
            check_reference(scope, trail, source, reference.as_str())?;
            Ok(())
        }
        Row::Leaf(_) => Ok(()),
        Row::AsItIs(_) => Ok(()),
        Row::Option(_) => Ok(()),
        Row::Ruled(_, _) => Ok(()),
        Row::Vec(_) => Ok(()),
        Row::Set(_) => Ok(()),
        Row::Array(_, _) => Ok(()),
        Row::Tuple {
            listed: _,
            more: _,
            rest: _,
        } => Ok(()),
        Row::Map(_, _) => Ok(()),
        Row::PatternMap(_, _) => Ok(()),
        Row::Struct {
            closed: _,
            fields: _,
            outside: _,
        } => Ok(()),
        Row::Enum {
            tag: _,
            closing: _,
            variants: _,
        } => Ok(()),
    }
}

/// Fails with the first fault of a schema itself whose row doesn't merge; one that does is answered by want of memory.
#[tactic(auto, using(crate::proofs::Causes::all_fine, crate::proofs::Causes::first_refuses, crate::proofs::Causes::second_refuses, crate::proofs::Causes::row_refuses))]
pub fn check_own<T: Texts>(
    scope: &Scope<'_, '_>,
    trail: &Vec<Steps<'_>>,
    source: &Source<'_>,
    finding: &Finding<'_>,
    texts: &mut T,
) -> Result<(), Fault>
    ensures fine { OnOk result ((d : DocumentOf) → finding_faults (T.relations texts.old) d scope.now.depth (finding_view (T.relations texts.old) finding.now) ≡ []) }
    ensures refused { IfErr result (λ f. (d : DocumentOf) → RefusesBy (path_by scope.now.start.now trail.now.items) (source_view source.now) (finding_view (T.relations texts.old) finding.now) (T.faults texts.old) (T.faults texts.new) (finding_faults (T.relations texts.old) d scope.now.depth (finding_view (T.relations texts.old) finding.now)) (fault_view f)) }
    ensures keeps { T.relations texts.new ≡ T.relations texts.old }
    ensures counts { T.faults texts.old ≤ T.faults texts.new }
{
    check_patterns(scope, trail, source, finding, texts)?;
    check_places(scope, trail, source, finding)?;
    check_row(scope, trail, source, &finding.row)?;
    Ok(())
}
