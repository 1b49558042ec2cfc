//! A document converted.
ghost use Rattle.std.specs.Prelude.{◌≡◌, ◌≤◌, [], IfOk, IfErr, OnOk, map, true};
ghost use Rattle.schema_tree.specs.Document.{view as document_seen};
ghost use Rattle.schema_tree.specs.Fault.{fault_view};
ghost use Rattle.entry_defs.specs.Sound.{IsSound};
ghost use Rattle.entry_defs.specs.Table.{root_of};
ghost use Rattle.naming_defs.specs.Names.{named_table as named_table_of};
ghost use Rattle.naming_defs.specs.Good.{is_good_name};
ghost use Rattle.emit_defs.specs.Emission.{emission as emission_by, models_of};
ghost use Rattle.reading_defs.specs.Laws.{defaults_are_sound};
ghost use Rattle.formed_plans.specs.Laws.{plan_of};
ghost use Rattle.schema_defs.specs.Texts.{Relations};
ghost use Rattle.schema_tree.specs.Fault.{memory};
ghost use Rattle.convert_walks.specs.Told.{faults_of, notes_of, ordered};
ghost use Rattle.convert_walks.specs.Tree.{document_tree};
ghost use Rattle.convert_trees.specs.Merges.{merges_in, merges_view};
ghost use Rattle.document_laws.specs.Laws.{WasRead};
ghost use Rattle.convert_trees.specs.Unread.{unread_in_document};
ghost use Rattle.tree_types.specs.View.{table_view};
ghost use Rattle.note_order.specs.Notes.{notes_view};
ghost use Rattle.space_trees.specs.Formed.{IsFormed};
ghost use Rattle.convert_document.specs.Note.{note_of};
ghost use Rattle.convert_document.specs.Emitted.{emission_of, emitted_view};
ghost use Rattle.convert_document.specs.Levels.{most_levels};
ghost use Rattle.convert_document.specs.Refused.{IsRefusal};

use crate::checking::check_read;
use crate::nesting::levels;
use crate::note::Note;
use crate::noting::notes_of;
use convert_trees::{Merge, merges_of, table_of};
use default_documents::laws::read_defaults_are_sound;
use emit_space::emit;
use formed_plans::laws::{plans_are_formed, read_documents_are_planned};
use note_order::{PlacedNote, ordered_notes};
use schema_tree::{Conversions, Document, Fault, Texts};
use space_trees::space_of;
use std::alloc::{AllocError, Global};
use syntax_trees::{DeriveInput, Ty};
use tree_names::named_table;
use tree_types::TreeTable;

/// What is emitted for a document: the items, the table of what their attributes don't say, the type of the root, and the notes.
#[derive(Drop)]
pub struct Emitted {
    pub items: Vec<DeriveInput>,
    pub table: Conversions,
    pub root: Ty,
    pub notes: Vec<Note>,
}

// The items of a table that gets names, and the notes in their order.
fn from_table(
    alloc: Global,
    table: &TreeTable<'_>,
    notes: Vec<PlacedNote>,
) -> Result<Emitted, AllocError>
    requires sound { IsSound (named_table_of is_good_name (table_view table.now)) }
    requires formed { IsFormed (named_table_of is_good_name (table_view table.now)) }
    ensures emission { IfOk result (λ e. emitted_view e ≡ emission_by (named_table_of is_good_name (table_view table.now)) (root_of (named_table_of is_good_name (table_view table.now)))) }
    ensures notes { IfOk result (λ e. e.notes.items ≡ map note_of (ordered (notes_view notes.items))) }
{
    let named = named_table(alloc, table)?;
    let planned = space_of(alloc, &named)?;
    let root = planned.root;
    let entries = planned.space.into_entries()?;
    let emission = emit(alloc, &entries, root)?;
    let sorted = ordered_notes(alloc, notes)?;
    let told = notes_of(alloc, sorted)?;
    Ok(Emitted {
        items: emission.items,
        table: emission.conversions,
        root: emission.root,
        notes: told,
    })
}

// What the rows of the document merge.
fn merged(alloc: Global, document: &Document, depth: u32, levels: u32) -> Result<Vec<Merge>, Fault>
    ensures merges { IfOk result (λ ms. (r : Relations) → merges_view ms.items ≡ merges_in (document_tree r (document_seen document.now) depth levels)) }
    ensures memory { IfErr result (λ f. fault_view f ≡ memory) }
{
    match merges_of(alloc, document, depth, levels) {
        Ok(merges) => Ok(merges),
        Err(_) => Err(Fault::Memory),
    }
}

// The items that stand for a document, where so many schemas may stand in one another.
#[tactic(auto, using(crate::proofs::Firsts::refused_all, crate::proofs::Firsts::without_memory))]
fn converted_within<T: Texts>(
    alloc: Global,
    document: &Document,
    depth: u32,
    levels: u32,
    texts: &mut T,
) -> Result<Emitted, Fault>
    requires { WasRead (document_seen document.now) }
    ensures emission { IfOk result (λ e. emitted_view e ≡ emission_of (T.relations texts.old) (document_seen document.now) depth levels) }
    ensures notes { IfOk result (λ e. e.notes.items ≡ map note_of (notes_of (T.relations texts.old) (document_seen document.now) depth levels)) }
    ensures faultless { OnOk result (faults_of (T.relations texts.old) (document_seen document.now) depth levels ≡ []) }
    ensures read { OnOk result (unread_in_document (T.relations texts.old) (document_seen document.now) depth levels ≡ []) }
    ensures sound { OnOk result (defaults_are_sound (models_of (plan_of (T.relations texts.old) (document_seen document.now) depth levels)) (emission_of (T.relations texts.old) (document_seen document.now) depth levels).conversions (T.relations texts.old) ≡ true) }
    ensures refused { IfErr result (λ f. IsRefusal (T.relations texts.old) (document_seen document.now) depth levels (T.faults texts.old) (T.faults texts.new) (fault_view f)) }
    ensures keeps { T.relations texts.new ≡ T.relations texts.old }
    ensures counts { T.faults texts.old ≤ T.faults texts.new }
{
    read_documents_are_planned();
    read_defaults_are_sound();
    plans_are_formed();
    let merges = merged(alloc, document, depth, levels)?;
    let converted = table_of(alloc, document, &merges, depth, levels, texts)?;
    check_read(converted.unread)?;
    let notes = converted.notes;
    match from_table(alloc, &converted.table, notes) {
        Ok(emitted) => Ok(emitted),
        Err(_) => Err(Fault::Memory),
    }
}

/// The items that stand for a document, by the table of rows: each schema is converted by the first row that fits, one whose row merges
/// by what it merges to, what references lead to has an item, and names are given where wanted ones can't be had. `depth` bounds the
/// steps from a definition or the root to a schema of it, and the places of a list that is shorter than its sizes. Notes say where the
/// items don't take exactly what is admitted.
/// Refused is the first fault in the order of conversion: the definitions by name, then the root, each schema before its
/// parts. Then the first value that a schema states, in the same order, and that the type of its other keywords doesn't read (`InvalidValue`): those
/// that it lists, and its default, which has to lie within an integer's bounds too, and may not come round to itself by fields that it leaves out. `Texts` comes where the judge of texts failed, at the schema that asked it, `Memory` where memory runs out or too many schemas
/// stand in one another.
pub fn converted<T: Texts>(
    alloc: Global,
    document: &Document,
    depth: u32,
    texts: &mut T,
) -> Result<Emitted, Fault>
    requires { WasRead (document_seen document.now) }
    ensures emission { IfOk result (λ e. emitted_view e ≡ emission_of (T.relations texts.old) (document_seen document.now) depth most_levels) }
    ensures notes { IfOk result (λ e. e.notes.items ≡ map note_of (notes_of (T.relations texts.old) (document_seen document.now) depth most_levels)) }
    ensures faultless { OnOk result (faults_of (T.relations texts.old) (document_seen document.now) depth most_levels ≡ []) }
    ensures read { OnOk result (unread_in_document (T.relations texts.old) (document_seen document.now) depth most_levels ≡ []) }
    ensures sound { OnOk result (defaults_are_sound (models_of (plan_of (T.relations texts.old) (document_seen document.now) depth most_levels)) (emission_of (T.relations texts.old) (document_seen document.now) depth most_levels).conversions (T.relations texts.old) ≡ true) }
    ensures refused { IfErr result (λ f. IsRefusal (T.relations texts.old) (document_seen document.now) depth most_levels (T.faults texts.old) (T.faults texts.new) (fault_view f)) }
    ensures keeps { T.relations texts.new ≡ T.relations texts.old }
    ensures counts { T.faults texts.old ≤ T.faults texts.new }
{
    let most = levels();
    converted_within(alloc, document, depth, most, texts)
}
