//! The rows of a document.
ghost use Rattle.std.specs.Prelude.{◌≡◌, ◌++◌, ◌∷◌, [], false, Some, IfErr, IfOk, OnOk, option_map};
ghost use Rattle.schema_defs.specs.Texts.{Relations};
ghost use Rattle.schema_defs.specs.Schema.{Schema as SchemaOf};
ghost use Rattle.schema_defs.specs.Admits.{defined, definition_word};
ghost use Rattle.schema_types.specs.View.{schema_view};
ghost use Rattle.schema_tree.specs.Document.{view as document_seen};
ghost use Rattle.convert_defs.specs.Convert.{Handed};
ghost use Rattle.convert_walks.specs.Tree.{definition_trees, document_tree, tree_at};
ghost use Rattle.merge_parts.specs.declared.fault.MergeFault.TheVariants.{Memory};
ghost use Rattle.merge_walks.specs.Carried.{root_walk};
ghost use Rattle.merged_rows.specs.Starts.{spot_of};
ghost use Rattle.document_merges.specs.Definitions.{is_under_defs, named_spot};
ghost use Rattle.document_merges.specs.Merges.{merges_in, merges_view};

use crate::gather::gather;
use crate::merge::Merge;
use crate::scope::Scope;
use merge_parts::MergeFault;
use merged_rows::{Budget, Start, size_of};
use row_findings::Source;
use schema_tree::{Document, Schema};
use schema_types::{Location, Walk};
use std::alloc::{AllocError, Global};

// ---- starts

/// Where the tree of the root begins. Fails only for want of memory, as all here.
pub fn root_start(alloc: Global) -> Result<Start, AllocError>
    ensures { IfOk result (λ t. (h : Handed) → spot_of t [] h ≡ record { handed = h; path = []; walk = root_walk; in_made = false }) }
{
    let path = Location::root(alloc);
    let start = begun(alloc, path)?;
    Ok(start)
}

fn begun(alloc: Global, path: Location) -> Result<Start, AllocError>
    ensures { IfOk result (λ t. (h : Handed) → spot_of t [] h ≡ record { handed = h; path = path; walk = path ∷ []; in_made = false }) }
{
    let mut locations = Vec::new(alloc);
    locations.push(path.try_clone(alloc)?)?;
    Ok(Start {
        path,
        walk: Walk { locations },
        made: false,
    })
}

fn keyword_of(under_defs: bool) -> &'static str
    ensures { result.now ≡ definition_word under_defs }
{
    if under_defs { "$defs" } else { "definitions" }
}

fn stands_under_defs(alloc: Global, document: &Document, name: &str) -> Result<bool, AllocError>
    ensures { IfOk result (λ b. b ≡ is_under_defs (document_seen document.now) name.now) }
{
    let keyword = Location::root(alloc).child(alloc, "$defs")?;
    let place = keyword.child(alloc, name)?;
    Ok(document.schema_at(&place).is_some())
}

fn definition_place(alloc: Global, document: &Document, name: &str) -> Result<Location, AllocError>
    ensures { IfOk result (λ l. l ≡ definition_word (is_under_defs (document_seen document.now) name.now) ∷ name.now ∷ []) }
{
    let keyword = keyword_of(stands_under_defs(alloc, document, name)?);
    let owner = Location::root(alloc).child(alloc, keyword)?;
    let place = owner.child(alloc, name)?;
    Ok(place)
}

/// Where the tree of the definition of that name begins.
pub fn definition_start(alloc: Global, document: &Document, name: &str) -> Result<Start, AllocError>
    ensures { IfOk result (λ t. (h : Handed) → spot_of t [] h ≡ record { handed = h; path = definition_word (is_under_defs (document_seen document.now) name.now) ∷ name.now ∷ []; walk = (definition_word (is_under_defs (document_seen document.now) name.now) ∷ name.now ∷ []) ∷ []; in_made = false }) }
{
    let place = definition_place(alloc, document, name)?;
    let start = begun(alloc, place)?;
    Ok(start)
}

// ---- what merges

fn size_of_definition(document: &Document, name: &str) -> u64 {
    match document.definition(name) {
        Some(schema) => size_of(schema),
        None => 0,
    }
}

fn size_of_document(document: &Document) -> u64 {
    let mut size = size_of(document.root());
    let mut names = document.names();
    while let Some(name) = names.next() {
        size = size.saturating_add(size_of_definition(document, name));
    }
    size
}

// Adds what the rows of the conversion tree merge that begins at this start with this schema, where so much may still
// be merged.
fn merges_within(
    alloc: Global,
    document: &Document,
    depth: u32,
    levels: u32,
    budget: &Budget,
    merges: &mut Vec<Merge>,
    start: &Start,
    schema: &Schema,
) -> Result<(), MergeFault>
    ensures found { OnOk result ((r : Relations) (h : Handed) → merges_view merges.new.items ≡ merges_view merges.old.items ++ merges_in (tree_at r (document_seen document.now) depth levels (spot_of start.now [] h) (schema_view schema.now))) }
    ensures memory { IfErr result (λ e. e ≡ Memory) }
{
    let scope = Scope {
        alloc,
        document,
        depth,
        start,
        budget,
    };
    let trail = Vec::new(alloc);
    let source = Source::Written(schema);
    gather(&scope, merges, &trail, levels, &source)
}

/// Adds what the rows of the conversion tree merge that begins at this start with this schema.
pub fn merges_at(
    alloc: Global,
    document: &Document,
    depth: u32,
    levels: u32,
    merges: &mut Vec<Merge>,
    start: &Start,
    schema: &Schema,
) -> Result<(), MergeFault>
    ensures found { OnOk result ((r : Relations) (h : Handed) → merges_view merges.new.items ≡ merges_view merges.old.items ++ merges_in (tree_at r (document_seen document.now) depth levels (spot_of start.now [] h) (schema_view schema.now))) }
    ensures memory { IfErr result (λ e. e ≡ Memory) }
{
    let budget = Budget::new(size_of(schema));
    merges_within(
        alloc, document, depth, levels, &budget, merges, start, schema,
    )
}

/// What the rows of the document merge: of its definitions in the order of their names, then of its root.
pub fn merges_of(
    alloc: Global,
    document: &Document,
    depth: u32,
    levels: u32,
) -> Result<Vec<Merge>, MergeFault>
    ensures found { IfOk result (λ ms. (r : Relations) → merges_view ms.items ≡ merges_in (document_tree r (document_seen document.now) depth levels)) }
    ensures memory { IfErr result (λ e. e ≡ Memory) }
{
    let budget = Budget::new(size_of_document(document));
    let mut merges = Vec::new(alloc);
    of_definitions(alloc, document, depth, levels, &budget, &mut merges)?;
    let start = root_start(alloc)?;
    merges_within(
        alloc,
        document,
        depth,
        levels,
        &budget,
        &mut merges,
        &start,
        document.root(),
    )?;
    Ok(merges)
}

fn of_definitions(
    alloc: Global,
    document: &Document,
    depth: u32,
    levels: u32,
    budget: &Budget,
    merges: &mut Vec<Merge>,
) -> Result<(), MergeFault>
    ensures found { OnOk result ((r : Relations) → merges_view merges.new.items ≡ merges_view merges.old.items ++ merges_in (definition_trees r (document_seen document.now) depth levels (document_seen document.now).definitions)) }
    ensures memory { IfErr result (λ e. e ≡ Memory) }
{
    let mut names = document.names();
    while let Some(name) = names.next() {
        of_definition(alloc, document, depth, levels, budget, merges, name)?;
    }
    Ok(())
}

fn of_definition(
    alloc: Global,
    document: &Document,
    depth: u32,
    levels: u32,
    budget: &Budget,
    merges: &mut Vec<Merge>,
    name: &str,
) -> Result<(), MergeFault>
    ensures found { OnOk result ((r : Relations) (s : SchemaOf) → option_map (λ e. e.body) (defined name.now (document_seen document.now).definitions) ≡ Some s → merges_view merges.new.items ≡ merges_view merges.old.items ++ merges_in (tree_at r (document_seen document.now) depth levels (named_spot (document_seen document.now) name.now) s)) }
    ensures memory { IfErr result (λ e. e ≡ Memory) }
{
    match document.definition(name) {
        Some(schema) => {
            let start = definition_start(alloc, document, name)?;
            merges_within(
                alloc, document, depth, levels, budget, merges, &start, schema,
            )
        }
        None => Err(MergeFault::Memory),
    }
}
