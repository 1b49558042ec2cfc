//! Objects: maps, maps by patterns, and structs.
ghost use Rattle.std.specs.Prelude.{◌≡◌, ◌++◌, ◌||◌, not, IfOk, map, option_map};
ghost use Rattle.schema_defs.specs.Layer.{is_given};
ghost use Rattle.schema_defs.specs.Texts.{Relations};
ghost use Rattle.schema_types.specs.View.{members_view, named_of};
ghost use Rattle.convert_defs.specs.Row.{add_notes, asking, noted as noted_as, here, narrowed, widened, names_note};
ghost use Rattle.convert_defs.specs.IntegerRow.{note_if};
ghost use Rattle.convert_defs.specs.Owners.{object_finding as object_finding_of, no_property, map_of, pattern_names, pattern_row as pattern_row_of, struct_of};
ghost use Rattle.row_findings.specs.View.{note_view, row_view, finding_view};
ghost use Rattle.object_rows.specs.Parts.{props_in, patterns_in, rest_in, names_in, rules_in, found_with, found_by_parts};

use crate::fields::{outside_row, property_fields};
use crate::maps::{any_text, map_row, pattern_row};
use crate::members::{is_counted, is_false, is_map, is_pattern_map, is_without};
use row_findings::{Finding, Note, NoteKind, Patterns, Row, Way, anything, noted, with_note};
use schema_types::{ObjectValidation, Setting};
use std::alloc::{AllocError, Global};

/// The row of objects by the keywords of members, with the notes that are given before.
#[tactic(auto, using(row_findings::proofs::PlainRows::plain_noted))]
pub fn object_finding<'d>(
    alloc: Global,
    setting: Setting,
    notes: Vec<Note<'d>>,
    members: Option<&'d ObjectValidation>,
) -> Result<Finding<'d>, AllocError>
    ensures { IfOk result (λ f. (r : Relations) → finding_view r f ≡ add_notes (map note_view notes.entry.items) (object_finding_of setting (named_of (option_map (λ m. members_view m.now) members.entry)))) }
{
    match members {
        None => {
            let key = any_text(alloc)?;
            Ok(noted(alloc, notes, Row::Map(key, anything())))
        }
        Some(members) => {
            let finding = finding_by_parts(alloc, setting, notes, members)?;
            Ok(finding)
        }
    }
}

fn finding_by_parts<'d>(
    alloc: Global,
    setting: Setting,
    notes: Vec<Note<'d>>,
    members: &'d ObjectValidation,
) -> Result<Finding<'d>, AllocError>
    ensures { IfOk result (λ f. (r : Relations) → finding_view r f ≡ add_notes (map note_view notes.entry.items) (found_by_parts setting (members_view members.now))) }
{
    let counted = with_note(notes, is_counted(members), Way::Widened, NoteKind::Counts)?;
    let finding = finding_after(alloc, setting, counted, members)?;
    Ok(finding)
}

// After the note of the counts.
fn finding_after<'d>(
    alloc: Global,
    setting: Setting,
    notes: Vec<Note<'d>>,
    members: &'d ObjectValidation,
) -> Result<Finding<'d>, AllocError>
    ensures { IfOk result (λ f. (r : Relations) → finding_view r f ≡ found_with setting (members_view members.now) (map note_view notes.entry.items)) }
{
    if is_map(members) {
        let map = map_finding(alloc, notes, members)?;
        return Ok(map);
    }
    if is_pattern_map(members) {
        let by_patterns = pattern_finding(alloc, notes, members)?;
        return Ok(by_patterns);
    }
    let fields = struct_finding(alloc, setting, notes, members)?;
    Ok(fields)
}

fn map_finding<'d>(
    alloc: Global,
    notes: Vec<Note<'d>>,
    members: &'d ObjectValidation,
) -> Result<Finding<'d>, AllocError>
    ensures { IfOk result (λ f. (r : Relations) → finding_view r f ≡ noted_as (map note_view notes.entry.items) (map_of (rest_in (members_view members.now)) (names_in (members_view members.now)))) }
{
    let row = map_row(
        alloc,
        &members.additional_properties,
        &members.property_names,
    )?;
    Ok(noted(alloc, notes, row))
}

fn pattern_finding<'d>(
    alloc: Global,
    notes: Vec<Note<'d>>,
    members: &'d ObjectValidation,
) -> Result<Finding<'d>, AllocError>
    ensures { IfOk result (λ f. (r : Relations) → finding_view r f ≡ asking (pattern_names (patterns_in (members_view members.now))) (noted_as (map note_view notes.entry.items ++ note_if (not (is_given (rest_in (members_view members.now)))) (here narrowed names_note)) (pattern_row_of (patterns_in (members_view members.now))))) }
{
    let noticed = with_note(
        notes,
        members.additional_properties.is_none(),
        Way::Narrowed,
        NoteKind::Names,
    )?;
    let finding = noted(alloc, noticed, pattern_row(&members.pattern_properties));
    Ok(Finding {
        row: finding.row,
        notes: finding.notes,
        patterns: Patterns::Named(&members.pattern_properties),
        branches: finding.branches,
        places: finding.places,
    })
}

fn has_names(members: &ObjectValidation) -> bool
    ensures { result ≡ (is_given (names_in (members_view members.now)) || not (no_property (patterns_in (members_view members.now)))) }
{
    members.property_names.is_some() || !is_without(&members.pattern_properties)
}

fn has_patterns(members: &ObjectValidation) -> bool
    ensures { result ≡ not (no_property (patterns_in (members_view members.now))) }
{
    !is_without(&members.pattern_properties)
}

fn struct_finding<'d>(
    alloc: Global,
    setting: Setting,
    notes: Vec<Note<'d>>,
    members: &'d ObjectValidation,
) -> Result<Finding<'d>, AllocError>
    ensures { IfOk result (λ f. (r : Relations) → finding_view r f ≡ noted_as (map note_view notes.entry.items ++ note_if (is_given (names_in (members_view members.now)) || not (no_property (patterns_in (members_view members.now)))) (here widened names_note) ++ note_if (not (no_property (patterns_in (members_view members.now)))) (here narrowed names_note)) (struct_of setting (props_in (members_view members.now)) (rest_in (members_view members.now)) (rules_in (members_view members.now)))) }
{
    let widened = with_note(notes, has_names(members), Way::Widened, NoteKind::Names)?;
    let noticed = with_note(
        widened,
        has_patterns(members),
        Way::Narrowed,
        NoteKind::Names,
    )?;
    let row = struct_row(alloc, setting, members)?;
    Ok(noted(alloc, noticed, row))
}

fn struct_row<'d>(
    alloc: Global,
    setting: Setting,
    members: &'d ObjectValidation,
) -> Result<Row<'d>, AllocError>
    ensures { IfOk result (λ w. (r : Relations) → row_view r w ≡ struct_of setting (props_in (members_view members.now)) (rest_in (members_view members.now)) (rules_in (members_view members.now))) }
{
    let fields = property_fields(alloc, setting, &members.required, &members.properties)?;
    let outside = outside_row(
        alloc,
        &members.properties,
        &members.required,
        &members.additional_properties,
    )?;
    Ok(Row::Struct {
        closed: is_false(&members.additional_properties),
        fields,
        outside,
    })
}
