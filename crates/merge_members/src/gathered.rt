//! Properties that are merged, name by name.
ghost use Rattle.std.specs.Prelude.{◌≡◌, Bool, true, false, IfErr, OnOk, ◌++◌, [], ◌∷◌, string_bytes};
ghost use Rattle.std.specs.BTreeMap.{insert_entry};
ghost use Rattle.std.specs.Ordering.{is_lt};
ghost use Rattle.std.specs.String.{string_cmp};
ghost use Rattle.schema_defs.specs.Schema.{Properties, no_properties};
ghost use Rattle.schema_types.specs.View.{properties_view, schema_view};
ghost use Rattle.schema_types.specs.declared.schema.Schema as tree;
ghost use Rattle.merge_defs.specs.Outcome.{Outcome, answer};
ghost use Rattle.merge_defs.specs.Objects.{put_property};
ghost use Rattle.merge_parts.specs.declared.fault.MergeFault.TheVariants.{Memory};
ghost use Rattle.merge_parts.specs.View.{notes_view};
ghost use Rattle.merge_steps.specs.declared.stop.Stop.TheVariants.{Fault};
ghost use Rattle.merge_steps.specs.Ends.{Ends, Leads};
ghost use Rattle.merge_members.specs.Plans.{and_last, gathered_outcome, properties_in, unsaid_view};

use crate::entries::is_false;
use merge_parts::{MergeFault, MergeKind, MergeNote, Way, never_unless, note_if};
use merge_steps::Stop;
use schema_types::Schema;
use std::alloc::Global;
use std::collections::BTreeMap;

/// The properties of the names that are merged, and whether one of those that are required is `false`.
#[derive(Drop)]
pub struct Gathered {
    pub properties: BTreeMap<String, Schema>,
    pub clashes: bool,
}

/// No names yet.
pub fn none_gathered(alloc: Global) -> Gathered
    ensures properties { properties_in result ≡ no_properties }
    ensures clashes { result.clashes ≡ false }
{
    Gathered {
        properties: BTreeMap::new(alloc),
        clashes: false,
    }
}

// ---- one name more

fn is_below(name: &String, other: &String) -> bool
    ensures { result ≡ is_lt (string_cmp name.now other.now) }
{
    name.cmp(other).is_lt()
}

// Whether the name comes after all names that are there.
#[tactic(auto, using(crate::proofs::Last::last_of_none, crate::proofs::Last::last_of_some))]
fn comes_last(properties: &BTreeMap<String, Schema>, name: &String) -> bool
    ensures { result ≡ true → (s : tree.Schema) → insert_entry string_cmp properties.now.entries name.now s ≡ properties.now.entries ++ (name.now, s) ∷ [] }
{
    match properties.last_key_value() {
        None => true,
        Some((last, _)) => is_below(last, name),
    }
}

// Names that are merged rise; one that doesn't is answered by want of memory.
#[tactic(auto, using(crate::proofs::Last::view_last))]
fn put_last(
    properties: &mut BTreeMap<String, Schema>,
    name: String,
    schema: Schema,
) -> Result<(), Stop>
    ensures last { OnOk result (properties_view properties.new.entries ≡ and_last (properties_view properties.old.entries) (string_bytes name) (schema_view schema)) }
    ensures memory { IfErr result (λ e. e ≡ Fault Memory) }
{
    if !comes_last(properties, &name) {
        return Err(Stop::Fault(MergeFault::Memory));
    }
    drop(properties.insert(name, schema)?);
    Ok(())
}

/// What is made of the schema that binds a name: the name is left out, has the schema, or is such that nothing is admitted. `is_closed`
/// says that names without a property are refused.
#[tactic(auto, using(crate::proofs::Names::clash_leads, crate::proofs::Names::unsaid_leads, crate::proofs::Names::put_leads))]
pub fn gather(
    notes: &mut Vec<MergeNote>,
    gathered: &mut Gathered,
    is_closed: bool,
    is_needed: bool,
    is_unsaid: bool,
    name: String,
    schema: Schema,
) -> Result<(), Stop>
    ensures gathered { OnOk result ((object_type : Bool) (after : Outcome Properties) → Leads (notes_view notes.old.items) (notes_view notes.new.items) (gathered_outcome object_type gathered.old.clashes (properties_in gathered.old) (put_property object_type is_needed is_closed (unsaid_view is_unsaid) (string_bytes name) (schema_view schema) after)) (gathered_outcome object_type gathered.new.clashes (properties_in gathered.new) after)) }
    ensures memory { IfErr result (λ e. e ≡ Fault Memory) }
{
    let is_shut = is_false(&schema);
    if is_shut && is_needed {
        gathered.clashes = true;
        return Ok(());
    }
    if is_shut && is_closed {
        note_if(notes, is_unsaid, Way::Narrowed, MergeKind::Absent)?;
        return Ok(());
    }
    put_last(&mut gathered.properties, name, schema)?;
    Ok(())
}

/// All names, or never where one that is required is `false`; `is_object` says that the merged type is object.
#[tactic(auto, using(crate::proofs::Endings::all_clash, merge_steps::proofs::Ending::memory))]
pub fn all_gathered(
    notes: &mut Vec<MergeNote>,
    is_object: bool,
    gathered: Gathered,
) -> Result<BTreeMap<String, Schema>, Stop>
    ensures { Ends (λ m. properties_view m.entries) (notes_view notes.old.items) (notes_view notes.new.items) (gathered_outcome is_object gathered.clashes (properties_in gathered) (answer [] no_properties)) result }
{
    let Gathered {
        properties,
        clashes,
    } = gathered;
    if clashes {
        never_unless(notes, is_object, MergeKind::Clash)?;
        return Err(Stop::Never);
    }
    Ok(properties)
}
